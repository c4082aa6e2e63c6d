//! The metrics of the process, under the names that Prometheus' own clients give them: without the prefix of the others.

ghost use Rattle.std.specs.Prelude.{◌≡◌};
ghost use Rattle.srt_status.specs.Process.{process_name, process_help, process_kind, number_if, micros_if, process_amount};

use crate::figures::Amount;
use crate::gateway::GatewayStatus;

/// What is shown of the process.
#[derive(Clone, Copy)]
pub(crate) enum ProcessFigure {
    ProcessorTime,
    ResidentMemory,
    OpenDescriptors,
    MostDescriptors,
    StartTime,
}

/// All that is shown of the process, in its order.
pub(crate) const PROCESS_FIGURES: [ProcessFigure; 5] = [
    ProcessFigure::ProcessorTime,
    ProcessFigure::ResidentMemory,
    ProcessFigure::OpenDescriptors,
    ProcessFigure::MostDescriptors,
    ProcessFigure::StartTime,
];

pub(crate) fn process_name(figure: ProcessFigure) -> &'static str
    ensures { result.now ≡ process_name figure }
{
    match figure {
        ProcessFigure::ProcessorTime => "process_cpu_seconds_total",
        ProcessFigure::ResidentMemory => "process_resident_memory_bytes",
        ProcessFigure::OpenDescriptors => "process_open_fds",
        ProcessFigure::MostDescriptors => "process_max_fds",
        ProcessFigure::StartTime => "process_start_time_seconds",
    }
}

pub(crate) fn process_help(figure: ProcessFigure) -> &'static str
    ensures { result.now ≡ process_help figure }
{
    match figure {
        ProcessFigure::ProcessorTime => "Processor time of the process, user and system.",
        ProcessFigure::ResidentMemory => "Resident memory of the process.",
        ProcessFigure::OpenDescriptors => "Open file descriptors.",
        ProcessFigure::MostDescriptors => "The most file descriptors that may be open.",
        ProcessFigure::StartTime => "The start of the process, since 1970.",
    }
}

/// The type of a family, as the format names it.
pub(crate) fn process_kind(figure: ProcessFigure) -> &'static str
    ensures { result.now ≡ process_kind figure }
{
    match figure {
        ProcessFigure::ProcessorTime => "counter",
        _ => "gauge",
    }
}

fn number_if(value: Option<u64>) -> Option<Amount>
    ensures { result ≡ number_if value }
{
    Some(Amount::Number(value?))
}

fn micros_if(value: Option<u64>) -> Option<Amount>
    ensures { result ≡ micros_if value }
{
    Some(Amount::Micros(value?))
}

/// Returns this of the process; None if it isn't known.
pub(crate) fn process_amount(figure: ProcessFigure, gateway: &GatewayStatus<'_>) -> Option<Amount>
    ensures { result ≡ process_amount figure gateway.now }
{
    match figure {
        ProcessFigure::ProcessorTime => micros_if(gateway.process.cpu_micros),
        ProcessFigure::ResidentMemory => number_if(gateway.resident_bytes),
        ProcessFigure::OpenDescriptors => number_if(gateway.process.open_descriptors),
        ProcessFigure::MostDescriptors => number_if(gateway.process.most_descriptors),
        ProcessFigure::StartTime => micros_if(gateway.process.started_micros),
    }
}
