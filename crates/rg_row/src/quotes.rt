ghost use Rattle.std.specs.Prelude.{◌≡◌, IfOk, option_map, [], is_some};
ghost use Rattle.csv.specs.Machine.{next_record};
ghost use Rattle.csv.specs.Reading.{default_config, strip_bom};
ghost use Rattle.csv.specs.Records.{fields_of as texts_of};
ghost use Rattle.csv.specs.declared.parser.State.TheVariants as st;
ghost use Rattle.rg_row.specs.Fields.{split_from, start};
ghost use Rattle.rg_row.specs.Modes.{mode_of, next_mode};

use csv::{ByteRecord, Error, ReaderBuilder};
use std::alloc::Global;

// Where the reading of a line stands.
#[derive(Clone, Copy)]
enum Mode {
    Start,
    Bare,
    Quoted,
    Behind,
}

fn next(mode: Mode, byte: u8) -> Option<Mode>
    ensures { option_map mode_of result ≡ next_mode (mode_of mode) byte }
{
    match mode {
        Mode::Start => match byte {
            b',' => Some(Mode::Start),
            b'"' => Some(Mode::Quoted),
            _ => Some(Mode::Bare),
        },
        Mode::Bare => match byte {
            b',' => Some(Mode::Start),
            b'"' => None,
            _ => Some(Mode::Bare),
        },
        Mode::Quoted => match byte {
            b'"' => Some(Mode::Behind),
            _ => Some(Mode::Quoted),
        },
        Mode::Behind => match byte {
            b'"' => Some(Mode::Quoted),
            b',' => Some(Mode::Start),
            _ => None,
        },
    }
}

/// Whether each field is bare or quoted.
pub fn is_split(line: &[u8]) -> bool
    ensures { result ≡ is_some (split_from start [] [] line.now) }
{
    let mut mode = Mode::Start;
    for byte in line {
        match next(mode, *byte) {
            Some(then) => mode = then,
            None => return false,
        }
    }
    match mode {
        Mode::Quoted => false,
        _ => true,
    }
}

/// The record that `csv` reads from a line, if it reads one. Each error is for want of memory.
pub fn first_record(alloc: Global, line: &[u8]) -> Result<Option<ByteRecord>, Error>
    ensures { IfOk result (λ found. option_map texts_of found ≡ option_map (λ read. read.0) (next_record default_config st.StartRecord [] [] (strip_bom line.now))) }
{
    let mut reader = ReaderBuilder::new()
        .has_headers(false)
        .from_reader(alloc, line);
    let mut record = ByteRecord::new(alloc);
    if reader.read_byte_record(&mut record)? {
        Ok(Some(record))
    } else {
        Ok(None)
    }
}
