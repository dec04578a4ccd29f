//! A command over an input and an output: what was written is handed on before more is read.
use crate::failure::{Failing, Stopped};
use crate::invocation::Invocation;
use crate::more::MoreCommands;
use crate::notes::{Told, tell_all};
use crate::perform::perform;
use crate::stages::Stages;
use std::cell::{Cell, RefCell};
use std::io::{BufWriter, Read, Write};
use std::sync::Wait;
use std::thread::Threads;
use tx_command::CommandEnd;
use tx_streams::{
    Asking, Comments, Copied, Counted, Dropped, Erasing, Escaping, Noting, Recent, Shared,
};
use tx_text::Broken;

/// Does what is asked over an input and an output. What was written is handed on each time before
/// more of the input is read.
pub(crate) fn answer<R, M, I, O>(
    rt: &R,
    more: &M,
    asked: &Invocation<'_>,
    input: I,
    output: O,
) -> Result<CommandEnd, Stopped>
where
    R: AllocGlobal + Threads + Wait + Sync + Send + Clone + Drop,
    M: MoreCommands,
    I: Read + Drop,
    O: Write + Drop,
{
    let (read, written) = (Cell::new(None), Cell::new(None));
    let input = Failing::new(input, &read);
    let output = Failing::new(output, &written);
    let ended = answer_over(rt, more, asked, input, output);
    ended.map_err(|why| Stopped {
        why,
        cause: match why {
            Broken::Input => read.get(),
            Broken::Output => written.get(),
            Broken::Memory => None,
        },
    })
}

// Does it, over streams that note why they failed.
fn answer_over<R, M, I, O>(
    rt: &R,
    more: &M,
    asked: &Invocation<'_>,
    input: I,
    output: O,
) -> Result<CommandEnd, Broken>
where
    R: AllocGlobal + Threads + Wait + Sync + Send + Clone + Drop,
    M: MoreCommands,
    I: Read + Drop,
    O: Write + Drop,
{
    let alloc = rt.alloc();
    let output = Escaping::new(alloc, Erasing::new(output, asked.progress), asked.is_shown);
    let Ok(writer) = BufWriter::new(alloc, output) else {
        return Err(Broken::Memory);
    };
    let shared = RefCell::new(writer);
    let dropped = RefCell::new(Dropped::new(alloc));
    let copy = RefCell::new(Vec::new(alloc));
    let counted = Counted::new(input, asked.progress);
    let steps = Comments::new(counted, &dropped, asked.job.has_comments);
    let copied = Copied::new(steps, &copy, asked.kept());
    let asking = Asking::new(copied, Shared::new(&shared), asked.prompter());
    let mut reader = Recent::new(alloc, asking)?;
    let mut writer = Noting::new(alloc, Shared::new(&shared));
    let mut stages = Stages::new(alloc);
    let ended = perform(
        rt,
        more,
        asked,
        &mut reader,
        &mut writer,
        &mut stages,
        &copy,
    );
    if !asked.says_why() {
        let told = Told {
            faults: writer.faults(),
            read_only: writer.read_only(),
            stages: &stages,
            dropped: &dropped,
            copy: &copy,
        };
        tell_all(asked, told, &reader);
    }
    if reader.inner().is_cut_off() {
        return Err(Broken::Output);
    }
    ended
}
