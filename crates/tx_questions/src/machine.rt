//! What the machine reads that commits each transaction in one step.
use std::alloc::{AllocError, Global};
use tx_machine::{Machine, Refused, SeenValue, Step, Why};
use tx_text::{Broken, put_digits, put_string};
use tx_types::{Key, Ts, Value};

// Has the machine make the steps of a run: the last timestamp that is drawn.
fn make_all(machine: &mut Machine, steps: &[Step]) -> Result<Ts, Broken> {
    let mut last = Ts::ZERO;
    'steps: for step in steps {
        if machine.step(step) == Err(Refused::Memory) {
            return Err(Broken::Memory);
        }
        if let Step::Draw(ts) = step {
            last = *ts;
        }
    }
    Ok(last)
}

// Appends a key, its value, and where that was committed.
fn put_committed(
    out: &mut Vec<u8>,
    key: &Key,
    value: &Value,
    commit: Ts,
) -> Result<(), AllocError> {
    put_string(out, key.as_bytes())?;
    out.extend_from_slice(b" ")?;
    put_string(out, value.as_bytes())?;
    out.extend_from_slice(b" committed at ")?;
    put_digits(out, commit.get())?;
    out.extend_from_slice(b"\n")
}

// Appends what a read of a key finds there, where it finds something: the machine is asked why it
// would not find nothing.
fn put_value(out: &mut Vec<u8>, machine: &Machine, key: &Key, at: Ts) -> Result<(), Broken> {
    let Ok(read) = key.clone() else {
        return Err(Broken::Memory);
    };
    let Ok(why) = machine.why(&Step::Read(read, at, None)) else {
        return Err(Broken::Memory);
    };
    if let Some(Why::Read { seen, .. }) = &why {
        if let SeenValue::Left(value, by) = seen {
            put_committed(out, key, value, by.commit)?;
        }
    }
    Ok(())
}

/// Of each of these keys, in their order, the value that a transaction would read which begins
/// behind these steps, and where it was committed, where there is one; and the last timestamp that
/// the steps draw.
pub(crate) fn values_now(alloc: Global, keys: &[Key], steps: &[Step]) -> Result<Vec<u8>, Broken> {
    let mut machine = Machine::new(alloc);
    let last = make_all(&mut machine, steps)?;
    let next = Ts::new(last.get().saturating_add(1));
    if machine.step(&Step::Draw(next)) == Err(Refused::Memory) {
        return Err(Broken::Memory);
    }
    let mut out = Vec::new(alloc);
    'keys: for key in keys {
        put_value(&mut out, &machine, key, next)?;
    }
    out.extend_from_slice(b"the last timestamp drawn is ")?;
    put_digits(&mut out, last.get())?;
    out.extend_from_slice(b"\n")?;
    Ok(out)
}
