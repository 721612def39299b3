ghost use Rattle.worked_runs.specs.Systems.{SmallSystems, PairAtWork, SentInOrder, LostPacket, PacketOnItsWay, DrivenPins};

/// A law: the definitions give what was worked out by hand for systems of two and three nodes. It does nothing.
pub fn worked_systems()
    ensures small { SmallSystems }
    ensures pair { PairAtWork }
    ensures order { SentInOrder }
    ensures lost { LostPacket }
    ensures on_its_way { PacketOnItsWay }
    ensures pins { DrivenPins }
{}
