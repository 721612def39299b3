ghost use Rattle.std.specs.Prelude.{◌≡◌, ◌<◌, ◌^◌, ◌++◌, OnOk, [], replicate, flat_map};
ghost use Rattle.source_model.specs.Values.{little_endian};
ghost use Rattle.xs_assembler.specs.Output.{Grows};
ghost use Rattle.xs_assembler.specs.Contents.{code_in, bytes_in};

use crate::contents::Content;
use crate::layouts::padding;
use source_model::{Section, Width};
use std::alloc::{AllocError, Global};
use xs_instructions::{Instr, WordIns};

// Code and bytes, by section.
#[derive(Drop)]
pub struct Output {
    pub code: Vec<Instr>,
    pub data_bytes: Vec<u8>,
    pub constant_bytes: Vec<u8>,
}

impl Output {
    // Nothing. It takes no memory.
    pub fn new(alloc: Global) -> Output
        ensures code { result.code.items ≡ [] }
        ensures data_bytes { result.data_bytes.items ≡ [] }
        ensures constant_bytes { result.constant_bytes.items ≡ [] }
    {
        Output {
            code: Vec::new(alloc),
            data_bytes: Vec::new(alloc),
            constant_bytes: Vec::new(alloc),
        }
    }

    // Puts what a statement adds to a section of this length.
    pub fn put(&mut self, section: Section, long: u64, content: &Content) -> Result<(), AllocError>
        ensures { OnOk result (Grows section (code_in long content.now) (bytes_in long content.now) self.old self.new) }
    {
        match section {
            Section::Text => put_code(&mut self.code, long, content),
            Section::Data => put_bytes(&mut self.data_bytes, long, content),
            Section::Constants => put_bytes(&mut self.constant_bytes, long, content),
        }
    }
}

fn put_code(code: &mut Vec<Instr>, long: u64, content: &Content) -> Result<(), AllocError>
    ensures { OnOk result (code.new.items ≡ code.old.items ++ code_in long content.now) }
{
    match content {
        Content::Instruction(ins) => Ok(code.push(*ins)?),
        Content::Padding(unit) => {
            let more = padding(long, *unit) as usize;
            Ok(code.resize(code.len() + more, Instr::Words(WordIns::Nop))?)
        }
        _ => Ok(()),
    }
}

fn put_bytes(bytes: &mut Vec<u8>, long: u64, content: &Content) -> Result<(), AllocError>
    ensures { OnOk result (bytes.new.items ≡ bytes.old.items ++ bytes_in long content.now) }
{
    match content {
        Content::Values(width, values) => put_values(bytes, *width, values),
        Content::Zeros(count) => put_zeros(bytes, *count as usize),
        Content::Padding(unit) => put_zeros(bytes, padding(long, *unit) as usize),
        _ => Ok(()),
    }
}

// Puts zero bytes at the end.
pub fn put_zeros(bytes: &mut Vec<u8>, count: usize) -> Result<(), AllocError>
    requires { count < 2 ^ 32 }
    ensures { OnOk result (bytes.new.items ≡ bytes.old.items ++ replicate count 0) }
{
    bytes.resize(bytes.len() + count, 0)?;
    Ok(())
}

// Puts the lowest bytes of each value at the end, the lowest one first.
fn put_values(bytes: &mut Vec<u8>, width: Width, values: &[u32]) -> Result<(), AllocError>
    ensures { OnOk result (bytes.new.items ≡ bytes.old.items ++ flat_map (little_endian width) values.now) }
{
    for value in values {
        put_value(bytes, width, *value)?;
    }
    Ok(())
}

fn put_value(bytes: &mut Vec<u8>, width: Width, value: u32) -> Result<(), AllocError>
    ensures { OnOk result (bytes.new.items ≡ bytes.old.items ++ little_endian width value) }
{
    let [a, b, c, d] = value.to_le_bytes();
    match width {
        Width::Byte => bytes.push(a)?,
        Width::Short => bytes.extend_from_slice(&[a, b])?,
        Width::Word => bytes.extend_from_slice(&[a, b, c, d])?,
    }
    Ok(())
}
