//! Why a verdict is one, in sentences for who reads them: one an edge of a cycle.
use std::alloc::{AllocError, Global};
use tx_acts::{put_read_shown, put_shown};
use tx_import::{Misrecorded, NamedHistory};
use tx_recording::RecordedOutcome;
use tx_text::put_digits;
use tx_verdict::{
    CycleStep, EdgeKind, Fact, Hint, HistoryVerdict, Lemma, Level, Refutation, Rule, WriteOrder,
};
use tx_verdict_text::{put_id, put_key, put_value};

/// What a line on standard error begins with.
pub(crate) const SIGN: &str = "txkv: ";

// A text that names transactions, keys and values of a history.
#[derive(Drop)]
struct Sentence<'a> {
    alloc: Global,
    history: &'a NamedHistory,
    level: Level,
    // What each line begins with.
    sign: &'static str,
    text: Vec<u8>,
}

impl<'a> Sentence<'a> {
    fn say(&mut self, words: &str) -> Result<(), AllocError> {
        self.text.extend_from_slice(words.as_bytes())
    }

    // Begins a line.
    fn begin(&mut self) -> Result<(), AllocError> {
        self.say(self.sign)
    }

    fn txn(&mut self, txn: u32) -> Result<(), AllocError> {
        put_id(&mut self.text, self.history, txn)
    }

    fn key(&mut self, key: u32) -> Result<(), AllocError> {
        put_key(&mut self.text, self.history, key)
    }

    fn value(&mut self, value: Option<u32>) -> Result<(), AllocError> {
        match value {
            Some(value) => put_value(&mut self.text, self.history, value),
            None => self.say("nothing"),
        }
    }

    // What an edge of a cycle says.
    fn step(&mut self, step: CycleStep) -> Result<(), AllocError> {
        let (first, second, between, last) = match step.edge {
            EdgeKind::Ww => (step.to, step.from, " wrote ", " after "),
            EdgeKind::Wr => (step.to, step.from, " read in ", " what was written by "),
            EdgeKind::Rw => (
                step.from,
                step.to,
                " read ",
                " as it was before the write of ",
            ),
            EdgeKind::So => (step.to, step.from, " came", " in its process after "),
            EdgeKind::Rt => (step.to, step.from, " began", " after the end of "),
        };
        self.begin()?;
        self.txn(first)?;
        self.say(between)?;
        if let Some(key) = step.key {
            self.key(key)?;
        }
        self.say(last)?;
        self.txn(second)?;
        self.say(match (step.edge, self.level) {
            (EdgeKind::Rw, Level::Snapshot) => ": it started before that committed\n",
            (EdgeKind::Rw, Level::Serializable) => ": it had committed when that started\n",
            _ => ": it started when that had committed\n",
        })?;
        self.shown(step)
    }

    // The lines that show an edge of a cycle, and what they did.
    fn shown(&mut self, step: CycleStep) -> Result<(), AllocError> {
        self.begin()?;
        self.say("  ")?;
        put_shown(self.alloc, &mut self.text, self.history, step)?;
        self.say("\n")
    }

    // The lines that show a read, and what they did.
    fn read_shown(&mut self, fact: Fact) -> Result<(), AllocError> {
        self.begin()?;
        self.say("  ")?;
        put_read_shown(self.alloc, &mut self.text, self.history, fact)?;
        self.say("\n")
    }

    fn steps(&mut self, steps: &[CycleStep]) -> Result<(), AllocError> {
        for step in steps {
            self.step(*step)?;
        }
        Ok(())
    }

    // Of two that wrote a key, which did first.
    fn order(&mut self, order: WriteOrder) -> Result<(), AllocError> {
        self.txn(order.first)?;
        self.say(" wrote ")?;
        self.key(order.key)?;
        self.say(" before ")?;
        self.txn(order.second)
    }

    // Orders that are settled, each with the round of the opposite one.
    fn facts(&mut self, refutation: &Refutation) -> Result<(), AllocError> {
        for fact in refutation.facts.as_slice() {
            self.begin()?;
            self.order(fact.order)?;
            self.say(", as the other way round would need this circle:\n")?;
            self.steps(fact.round.as_slice())?;
        }
        Ok(())
    }

    // What is left of clauses.
    fn hints(&mut self, hints: &[Hint]) -> Result<(), AllocError> {
        for hint in hints {
            self.begin()?;
            self.say("of choice ")?;
            put_digits(&mut self.text, u64::from(hint.lemma) + 1)?;
            self.say(" it is left that ")?;
            self.order(hint.order)?;
            self.say("\n")?;
        }
        Ok(())
    }

    // The orders of a clause.
    fn clause(&mut self, orders: &[WriteOrder]) -> Result<(), AllocError> {
        let mut between = "";
        'orders: for order in orders {
            self.say(between)?;
            self.order(*order)?;
            between = ", or ";
        }
        Ok(())
    }

    // A clause, with what it follows from.
    fn lemma(&mut self, number: usize, lemma: &Lemma) -> Result<(), AllocError> {
        self.begin()?;
        self.say("choice ")?;
        put_digits(&mut self.text, number as u64)?;
        self.say(": ")?;
        self.clause(lemma.clause.as_slice())?;
        self.say(", as else this circle is there:\n")?;
        self.hints(lemma.hints.as_slice())?;
        self.steps(lemma.round.as_slice())
    }

    // Orders, clauses, and the last round.
    fn refutation(&mut self, refutation: &Refutation) -> Result<(), AllocError> {
        self.facts(refutation)?;
        let lemmas = refutation.lemmas.as_slice();
        for i in 0..lemmas.len() {
            self.lemma(i + 1, &lemmas[i])?;
        }
        self.hints(refutation.hints.as_slice())?;
        self.begin()?;
        self.say("so this circle is left:\n")?;
        self.steps(refutation.last.as_slice())
    }

    // A key between words.
    fn key_in(&mut self, before: &str, key: u32, after: &str) -> Result<(), AllocError> {
        self.say(before)?;
        self.key(key)?;
        self.say(after)
    }

    // The other transaction between words, where there is one.
    fn other(&mut self, before: &str, by: Option<u32>, after: &str) -> Result<(), AllocError> {
        if let Some(by) = by {
            self.say(before)?;
            self.txn(by)?;
        }
        self.say(after)
    }

    // A value that one transaction read and that cannot be there.
    fn wrong_value(&mut self, fact: Fact) -> Result<(), AllocError> {
        self.say(" read ")?;
        self.value(fact.value)?;
        self.key_in(" in ", fact.key, "")?;
        match fact.rule {
            Rule::G1a => self.other(", which was put by ", fact.by, " that failed\n"),
            Rule::G1b => self.other(", and not all as it was left there by ", fact.by, "\n"),
            Rule::Duplicate => self.say(" twice\n"),
            _ => self.say(", which nobody put there\n"),
        }
    }

    // What one transaction read that cannot be.
    fn fact(&mut self, fact: Fact) -> Result<(), AllocError> {
        self.begin()?;
        self.txn(fact.txn)?;
        match fact.rule {
            Rule::Internal => {
                self.key_in(
                    " read ",
                    fact.key,
                    " not as its own operations had left it\n",
                )
            }
            Rule::Unrepeatable => self.key_in(" read ", fact.key, " twice, and not the same\n"),
            Rule::IncompatibleOrder => {
                self.other(" and ", fact.by, "")?;
                self.key_in(" read ", fact.key, " in two orders\n")
            }
            Rule::LostUpdate => {
                self.other(" and ", fact.by, "")?;
                self.key_in(
                    " saw the same in ",
                    fact.key,
                    ", and both put something there\n",
                )
            }
            _ => self.wrong_value(fact),
        }
    }

    // The keys of which the order is not known.
    fn open(&mut self, keys: &[u32]) -> Result<(), AllocError> {
        self.begin()?;
        self.say("nobody read in which order the last values came into ")?;
        let mut between = "";
        'keys: for key in keys {
            self.say(between)?;
            self.key(*key)?;
            between = ", ";
        }
        self.say("\n")?;
        self.begin()?;
        self.say("no order was found of them: --budget N looks longer\n")
    }

    fn verdict(&mut self, verdict: &HistoryVerdict) -> Result<(), AllocError> {
        match verdict {
            HistoryVerdict::Yes(_) => Ok(()),
            HistoryVerdict::No(cycle) => self.steps(cycle.steps.as_slice()),
            HistoryVerdict::Refuted(refutation) => self.refutation(refutation),
            HistoryVerdict::Fact(fact) => {
                self.fact(*fact)?;
                self.read_shown(*fact)
            }
            HistoryVerdict::Open(keys) => self.open(keys.as_slice()),
            HistoryVerdict::Unknown => {
                self.begin()?;
                self.say("neither an explanation nor a circle was found\n")
            }
            HistoryVerdict::Twice(first, second, value) => self.twice(*first, *second, *value),
        }
    }

    // The line of a transaction.
    fn line(&mut self, txn: u32) -> Result<(), AllocError> {
        self.say("line ")?;
        put_digits(&mut self.text, u64::from(txn) + 1)
    }

    // Whether a transaction failed.
    fn has_failed(&self, txn: u32) -> bool {
        match self.history.recording.transactions.get(txn as usize) {
            Some(transaction) => matches!(transaction.outcome, RecordedOutcome::Fail),
            None => false,
        }
    }

    // A value that two gave to its key.
    fn twice(&mut self, first: u32, second: u32, value: u32) -> Result<(), AllocError> {
        self.begin()?;
        self.line(second)?;
        self.say(" gives ")?;
        self.value(Some(value))?;
        if let Some(found) = self.history.tables.values.get(value as usize) {
            self.key_in(" to ", found.key, "")?;
        }
        self.say(" again, which ")?;
        self.line(first)?;
        self.say(" gave it")?;
        if self.has_failed(first) || self.has_failed(second) {
            self.say(": one of them failed, but that value or another of it was read")?;
        }
        self.say("\n")
    }

    // What a recorder got wrong.
    fn wrong(&mut self, wrong: Misrecorded) -> Result<(), AllocError> {
        self.begin()?;
        match wrong {
            Misrecorded::Empty => self.say("there is no transaction\n"),
            Misrecorded::EndsEarly(txn) => {
                self.line(txn)?;
                self.say(": its end lies below its start\n")
            }
            Misrecorded::SameId(first, second) => {
                self.line(second)?;
                self.say(" is called ")?;
                self.txn(second)?;
                self.say(", as ")?;
                self.line(first)?;
                self.say(" is; a line without an id is called by its number\n")
            }
            Misrecorded::Mixed(key, first, second) => {
                self.key_in("for ", key, " ")?;
                self.line(first)?;
                self.say(" has a list, and ")?;
                self.line(second)?;
                self.say(" has a register\n")
            }
        }
    }
}

// No sentence yet, of which each line is to begin with this sign.
fn no_sentence<'a>(
    alloc: Global,
    history: &'a NamedHistory,
    level: Level,
    sign: &'static str,
) -> Sentence<'a> {
    Sentence {
        alloc,
        history,
        level,
        sign,
        text: Vec::new(alloc),
    }
}

/// The sentence that says what a recorder got wrong.
pub(crate) fn wrong_sentence(
    alloc: Global,
    history: &NamedHistory,
    wrong: Misrecorded,
) -> Result<Vec<u8>, AllocError> {
    let mut sentence = no_sentence(alloc, history, Level::Snapshot, SIGN);
    sentence.wrong(wrong)?;
    Ok(sentence.text)
}

/// The sentences of a verdict at a level, each a line behind a sign; none of a yes.
pub(crate) fn sentences(
    alloc: Global,
    history: &NamedHistory,
    level: Level,
    sign: &'static str,
    verdict: &HistoryVerdict,
) -> Result<Vec<u8>, AllocError> {
    let mut sentence = no_sentence(alloc, history, level, sign);
    sentence.verdict(verdict)?;
    Ok(sentence.text)
}
