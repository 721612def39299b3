//! Laws of systems that begin before any slot. See docs/MACHINE.md.
#![tactic(auto)]

ghost use Rattle.begun_laws.specs.Begun.{StartIsSerial, SystemsGoOn};

/// A system that begins as a plan starts it is the serial machine; and each system goes on from what it has become. It does nothing.
pub fn systems_go_on()
    ensures start { StartIsSerial }
    ensures on { SystemsGoOn }
{}
