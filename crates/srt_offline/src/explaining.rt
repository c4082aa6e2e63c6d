//! `srtgw explain`: prints a tape in words, with the results of its replay.

ghost use Rattle.std.specs.Prelude.{◌≡◌, IfErr};
ghost use Rattle.srt_replay.specs.Counted.{source};
ghost use Rattle.srt_replay.specs.Tries.{sink};
ghost use Rattle.srt_transcript.specs.Transcript.{Transcribes};
ghost use Rattle.srt_offline.specs.Ends.{IsExplainFault, explain_end};

use crate::faults::OfflineFault;
use srt_config::Unread;
use srt_replay::{CountedReader, CountedWriter};
use srt_transcript::transcribe;
use std::fs::File;
use std::io::{self, BufRead, BufReader, BufWriter, Write};
use std::rt::Files;

/// The fault of a file that can't be opened, or whose buffer can't be allocated.
fn fault_of(error: io::Error) -> OfflineFault
    ensures { IsExplainFault result }
{
    OfflineFault::of_unread(&Unread::of_error(error))
}

/// Writes a transcript, whose fault becomes the command's.
fn write_transcript<T: BufRead, O: BufRead, W: Write>(
    tape: &mut CountedReader<T>,
    output: &mut CountedReader<O>,
    writer: &mut CountedWriter<W>,
) -> Result<(), OfflineFault>
    ensures faults { IfErr result IsExplainFault }
    ensures ends { (ended : _) × (result ≡ explain_end ended) × Transcribes (T.remaining (source tape.old)) (O.remaining (source output.old))
        (W.contents (sink writer.old)) (W.contents (sink writer.new)) ended }
{
    match transcribe(tape, output, writer) {
        Ok(()) => Ok(()),
        Err(fault) => Err(OfflineFault::of_transcript(fault)),
    }
}

/// Prints the transcript of a tape and of an output.
fn print_transcript<T: BufRead + Drop, O: BufRead + Drop>(
    rt: &(impl Print + AllocGlobal),
    tape: T,
    output: O,
) -> Result<(), OfflineFault>
    ensures { IfErr result IsExplainFault }
{
    match BufWriter::new(rt.alloc(), io::writer(rt)) {
        Ok(writer) => {
            let mut tape = CountedReader::new(tape);
            let mut output = CountedReader::new(output);
            let mut writer = CountedWriter::new(writer);
            write_transcript(&mut tape, &mut output, &mut writer)
        }
        Err(_) => Err(OfflineFault::Memory),
    }
}

/// Opens the tape, and prints its transcript with this output.
fn explain_with<O: BufRead + Drop>(
    rt: &(impl Print + Files + AllocGlobal),
    tape: &str,
    output: O,
) -> Result<(), OfflineFault>
    ensures { IfErr result IsExplainFault }
{
    match File::open(rt, tape) {
        Ok(file) => match BufReader::new(rt.alloc(), file) {
            Ok(reader) => print_transcript(rt, reader, output),
            Err(error) => Err(fault_of(error)),
        },
        Err(error) => Err(fault_of(error)),
    }
}

/// `srtgw explain TAPE`, with `--output FILE` if an output is given: prints each line of the tape in words, and below it the
/// line of the output with the same number. Both files are read by blocks, so they may have any size; a line has at most 4096
/// bytes. Allocates two or three buffers.
pub fn explain_file(
    rt: &(impl Print + Files + AllocGlobal),
    tape: &str,
    output: Option<&str>,
) -> Result<(), OfflineFault>
    ensures { IfErr result IsExplainFault }
{
    let Some(path) = output else {
        return explain_with(rt, tape, b"".as_slice());
    };
    match File::open(rt, path) {
        Ok(file) => match BufReader::new(rt.alloc(), file) {
            Ok(reader) => explain_with(rt, tape, reader),
            Err(error) => Err(fault_of(error)),
        },
        Err(error) => Err(fault_of(error)),
    }
}
