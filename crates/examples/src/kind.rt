//! What an example is, how it is run, and how what it shows ends.
use std::alloc::Global;
use tx_answers::{AnswerOptions, CycleForm, ImportEnd, import};
use tx_cells::Fresh;
use tx_check::{check, check_with_reason};
use tx_flat::FlatCells;
use tx_nested::NestedCells;
use tx_recording::Orders;
use tx_run::Plain;
use tx_script::{simulate, simulate_checked, simulate_numbered};
use tx_text::End;
use tx_verdict::{Level, Question};

/// What an example is.
#[derive(Clone, Copy, Debug)]
pub(crate) enum Kind {
    Script,
    /// A script over nested maps, in place of the flat ones that the program takes.
    Nested,
    /// A script with its check.
    Checked,
    /// The same over nested maps.
    CheckedNested,
    /// A script with its steps, each beside the number of its line.
    Numbered,
    Trace,
    /// A trace with the reason of a no.
    Reason,
    /// A history of another store.
    History,
    /// The same, and the trace of a yes is checked.
    TracedHistory,
    /// A history that keeps the order of each process and of the clock.
    Ordered,
    /// The same, and the trace of a yes is checked.
    TracedOrdered,
    /// A history that is serializable in both orders.
    Serial,
    /// The same, and the trace of a yes is checked.
    TracedSerial,
    /// A history that keeps both orders and is judged to its end.
    AllOfHistory,
    /// A history whose answer is a picture.
    DrawnHistory,
    /// A history whose answer is a page of each no.
    PagedHistory,
}

const NO_ORDER: Orders = Orders {
    sessions: false,
    strict: false,
};

const BOTH_ORDERS: Orders = Orders {
    sessions: true,
    strict: true,
};

const IN_ORDER: Question = Question {
    level: Level::Snapshot,
    orders: BOTH_ORDERS,
};

// Plays a script over these families. How it ended, unless it broke off.
fn plays<F: Fresh>(alloc: Global, text: &[u8], written: &mut Vec<u8>) -> Option<End> {
    let mut reader = text;
    simulate::<F, _, _, _>(alloc, &Plain, &mut reader, written, &mut None).ok()
}

// The same with its check.
fn checks<F: Fresh>(alloc: Global, text: &[u8], written: &mut Vec<u8>) -> Option<End> {
    let mut reader = text;
    simulate_checked::<F, _, _, _>(alloc, &Plain, &mut reader, written, &mut None).ok()
}

// The same with the number of its line beside each step.
fn numbers<F: Fresh>(alloc: Global, text: &[u8], written: &mut Vec<u8>) -> Option<End> {
    let mut reader = text;
    simulate_numbered::<F, _, _, _>(alloc, &Plain, &mut reader, written, &mut None).ok()
}

/// A verdict by its line, with no order, and nothing more.
const ONE_LINE: AnswerOptions = AnswerOptions {
    question: Question {
        level: Level::Snapshot,
        orders: NO_ORDER,
    },
    trace: false,
    form: CycleForm::Line,
    all: false,
    budget: 20_000,
};

const ORDERED: AnswerOptions = AnswerOptions {
    question: IN_ORDER,
    ..ONE_LINE
};

const SERIAL: AnswerOptions = AnswerOptions {
    question: Question {
        level: Level::Serializable,
        orders: BOTH_ORDERS,
    },
    ..ONE_LINE
};

const TO_THE_END: AnswerOptions = AnswerOptions {
    question: IN_ORDER,
    all: true,
    ..ONE_LINE
};

const AS_PICTURE: AnswerOptions = AnswerOptions {
    form: CycleForm::Picture,
    ..ONE_LINE
};

const ON_PAGE: AnswerOptions = AnswerOptions {
    form: CycleForm::Page,
    ..TO_THE_END
};

// Judges a history. How it ended, unless it broke off; that the verdict is open, its line says.
fn judges(
    alloc: Global,
    options: AnswerOptions,
    text: &[u8],
    written: &mut Vec<u8>,
) -> Option<End> {
    let mut reader = text;
    let answered = import(alloc, options, &mut reader, written).ok()?;
    Some(match answered.end {
        ImportEnd::Yes | ImportEnd::Open => End::Well,
        ImportEnd::No => End::No,
        ImportEnd::Faulted => End::Faulted,
    })
}

// Whether the answer to a history that a trace was asked of is no yes, or a trace that is a run.
fn is_traced(alloc: Global, options: AnswerOptions, text: &[u8]) -> Option<bool> {
    let asked = AnswerOptions {
        trace: true,
        ..options
    };
    let mut reader = text;
    let mut trace = Vec::new(alloc);
    let answered = import(alloc, asked, &mut reader, &mut trace).ok()?;
    if answered.end != ImportEnd::Yes {
        return Some(true);
    }
    let mut reader = trace.as_slice();
    let mut said = Vec::new(alloc);
    Some(check(alloc, &mut reader, &mut said).ok()? == End::Well)
}

// The same as `judges`; none where it is a yes whose trace is no run.
fn judges_traced(
    alloc: Global,
    options: AnswerOptions,
    text: &[u8],
    written: &mut Vec<u8>,
) -> Option<End> {
    if !is_traced(alloc, options, text)? {
        return None;
    }
    judges(alloc, options, text, written)
}

impl Kind {
    /// Runs an example. How it ended, unless it broke off.
    pub(crate) fn run(self, rt: &HostRuntime, text: &[u8], written: &mut Vec<u8>) -> Option<End> {
        let alloc = rt.alloc();
        let mut reader = text;
        match self {
            Kind::Script => plays::<FlatCells>(alloc, text, written),
            Kind::Nested => plays::<NestedCells>(alloc, text, written),
            Kind::Checked => checks::<FlatCells>(alloc, text, written),
            Kind::CheckedNested => checks::<NestedCells>(alloc, text, written),
            Kind::Numbered => numbers::<FlatCells>(alloc, text, written),
            Kind::Trace => check(alloc, &mut reader, written).ok(),
            Kind::Reason => check_with_reason(alloc, &mut reader, written).ok(),
            Kind::History => judges(alloc, ONE_LINE, text, written),
            Kind::TracedHistory => judges_traced(alloc, ONE_LINE, text, written),
            Kind::Ordered => judges(alloc, ORDERED, text, written),
            Kind::TracedOrdered => judges_traced(alloc, ORDERED, text, written),
            Kind::Serial => judges(alloc, SERIAL, text, written),
            Kind::TracedSerial => judges_traced(alloc, SERIAL, text, written),
            Kind::AllOfHistory => judges(alloc, TO_THE_END, text, written),
            Kind::DrawnHistory => judges(alloc, AS_PICTURE, text, written),
            Kind::PagedHistory => judges(alloc, ON_PAGE, text, written),
        }
    }
}

/// How what writes this text ends: its last line is a fault, says that a trace is no run or why, or
/// is neither; of a history its first line says no.
pub(crate) fn end_of(shown: &[u8]) -> End {
    let text = shown.trim_ascii_end();
    let last = match text.iter().rposition(|byte| *byte == b'\n') {
        Some(newline) => text.get(newline..).unwrap_or(text),
        None => text,
    };
    if last.windows(6).any(|part| part == b"\"E16\",".as_slice()) {
        End::Faulted
    } else if last.trim_ascii().starts_with(b"[\"check\",\"no\"")
        || text.starts_with(b"[\"import\",\"no\"")
        || last.trim_ascii().starts_with(b"[\"why\"")
        || last.trim_ascii().starts_with(b"[\"wrote\"")
    {
        End::No
    } else {
        End::Well
    }
}
