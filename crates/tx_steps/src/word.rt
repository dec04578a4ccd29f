//! The words that steps begin with.
ghost use Rattle.std.specs.Prelude.{◌≡◌, bytes_eq};
ghost use Rattle.tx_steps.specs.Steps.{life_word as life_in, session_word as session_in, world_word as world_in, run_word as run_in, word_said};

/// What a step asks for.
#[derive(Clone, Copy, Debug, PartialEq, Eq)]
pub(crate) enum Word {
    Begin,
    Put,
    Insert,
    Delete,
    Lock,
    Get,
    Scan,
    Declare,
    Prewrite,
    Draw,
    Commit,
    Abort,
    Heartbeat,
    Finish,
    Stop,
    Resolve,
    Deliver,
    Read,
    Versions,
    Tick,
    Gc,
    Seed,
    Transfer,
}

// Whether a text is this word. Mostly the lengths tell.
#[inline(always)]
fn is(text: &str, word: &str) -> bool
    ensures { result ≡ bytes_eq text.now word.now }
{
    text.len() == word.len() && text == word
}

// The words that most scripts are made of.
fn life_word(text: &str) -> Option<Word>
    ensures { result ≡ life_in text.now }
{
    if is(text, "begin") {
        Some(Word::Begin)
    } else if is(text, "put") {
        Some(Word::Put)
    } else if is(text, "get") {
        Some(Word::Get)
    } else if is(text, "declare") {
        Some(Word::Declare)
    } else if is(text, "prewrite") {
        Some(Word::Prewrite)
    } else if is(text, "draw") {
        Some(Word::Draw)
    } else if is(text, "commit") {
        Some(Word::Commit)
    } else if is(text, "finish") {
        Some(Word::Finish)
    } else {
        None
    }
}

// The other words of a session.
fn session_word(text: &str) -> Option<Word>
    ensures { result ≡ session_in text.now }
{
    if is(text, "delete") {
        Some(Word::Delete)
    } else if is(text, "lock") {
        Some(Word::Lock)
    } else if is(text, "scan") {
        Some(Word::Scan)
    } else if is(text, "abort") {
        Some(Word::Abort)
    } else if is(text, "heartbeat") {
        Some(Word::Heartbeat)
    } else if is(text, "stop") {
        Some(Word::Stop)
    } else if is(text, "resolve") {
        Some(Word::Resolve)
    } else if is(text, "insert") {
        Some(Word::Insert)
    } else {
        None
    }
}

// The words of no session.
fn world_word(text: &str) -> Option<Word>
    ensures { result ≡ world_in text.now }
{
    if is(text, "deliver") {
        Some(Word::Deliver)
    } else if is(text, "read") {
        Some(Word::Read)
    } else if is(text, "versions") {
        Some(Word::Versions)
    } else if is(text, "tick") {
        Some(Word::Tick)
    } else if is(text, "gc") {
        Some(Word::Gc)
    } else {
        None
    }
}

// The words that only runs have.
fn run_word(text: &str) -> Option<Word>
    ensures { result ≡ run_in text.now }
{
    if is(text, "transfer") {
        Some(Word::Transfer)
    } else if is(text, "seed") {
        Some(Word::Seed)
    } else {
        None
    }
}

/// The word of this text, where it is one.
pub(crate) fn word_of(text: &str) -> Option<Word>
    ensures { result ≡ word_said text.now }
{
    if let Some(word) = life_word(text) {
        return Some(word);
    }
    if let Some(word) = session_word(text) {
        return Some(word);
    }
    if let Some(word) = run_word(text) {
        return Some(word);
    }
    world_word(text)
}
