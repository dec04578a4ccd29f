//! What the two sessions do.
use super::table::{line, line_at, line_ended, line_read, line_sent};
use anyhow::{Context, Result};
use std::alloc::Global;
use std::sync::Wait;
use tx_client::{Session, Terms};
use tx_journal::{JournalId, Seat};
use tx_nested::NestedCells;
use tx_store::{Store, Wire};
use tx_types::{Key, Mode, Value};

// Who calls, at which store, and where its lines go.
#[derive(Drop)]
struct Side<'a, J: JournalId, R: Print + Wait> {
    rt: &'a R,
    store: &'a Store<J, NestedCells>,
    who: &'static str,
    alloc: Global,
}

impl<'a, J: JournalId, R: Print + Wait> Side<'a, J, R> {
    // Its way to the regions of the store.
    fn wire(&self) -> Wire<'a, J, NestedCells, R> {
        Wire::new(self.rt, self.store)
    }

    // A session begins: its seat draws the start.
    fn begin(&self, seat: Seat<J>) -> Result<Session<J>> {
        let session = Session::begin(self.alloc, seat)
            .ok()
            .context("a timestamp")?;
        line_at(self.rt, self.who, "begin", session.start())?;
        Ok(session)
    }

    // It enters a change into its buffer, which no one else sees: of one that has not declared yet.
    fn put(&self, session: &mut Session<J>, key: &str, value: &str, call: &str) -> Result<()> {
        if session.is_declared() {
            return line(self.rt, self.who, call, "is declared");
        }
        let key = Key::new(self.alloc, key.as_bytes())?;
        session.put(key, Value::new(self.alloc, value.as_bytes())?)?;
        line(self.rt, self.who, call, "ok")
    }

    fn delete(&self, session: &mut Session<J>, key: &str, call: &str) -> Result<()> {
        if session.is_declared() {
            return line(self.rt, self.who, call, "is declared");
        }
        session.delete(Key::new(self.alloc, key.as_bytes())?)?;
        line(self.rt, self.who, call, "ok")
    }

    // It fixes what it writes, and how it commits.
    fn declare(&self, session: &mut Session<J>, mode: Mode, call: &str) -> Result<()> {
        if session.is_declared() {
            return line(self.rt, self.who, call, "is declared");
        }
        let terms = Terms {
            mode,
            ttl: 100,
            max_commit: None,
        };
        session.declare(terms)?;
        line(self.rt, self.who, call, "ok")
    }

    // It locks its next key.
    fn prewrite(&self, session: &mut Session<J>) -> Result<()> {
        if !session.is_declared() {
            return line(self.rt, self.who, "prewrite", "is not declared");
        }
        let came = session.prewrite_next(self.alloc, &mut self.wire());
        line_sent(self.rt, self.who, "prewrite", came)
    }

    // It draws its commit timestamp: each of its keys is locked.
    fn draw(&self, session: &mut Session<J>) -> Result<()> {
        if !session.can_draw() {
            return line(self.rt, self.who, "draw", "is not due");
        }
        let commit = session.draw_commit()?;
        line_at(self.rt, self.who, "draw", commit)
    }

    // It commits its next key, the primary first.
    fn commit(&self, session: &mut Session<J>) -> Result<()> {
        if !session.can_commit() {
            return line(self.rt, self.who, "commit", "is not due");
        }
        let came = session.commit_next(&mut self.wire());
        line_sent(self.rt, self.who, "commit", came)
    }

    // It reads a key.
    fn get(&self, session: &mut Session<J>, key: &str, call: &str) -> Result<()> {
        let key = Key::new(self.alloc, key.as_bytes())?;
        let came = session.get(&key, &mut self.wire());
        line_read(self.rt, self.who, call, came)
    }

    // It reads the keys of a range.
    fn scan(&self, session: &mut Session<J>, from: &str, to: &str, call: &str) -> Result<()> {
        let from = Key::new(self.alloc, from.as_bytes())?;
        let to = Key::new(self.alloc, to.as_bytes())?;
        let came = session.scan(self.alloc, &from, &to, 10, &mut self.wire());
        line_read(self.rt, self.who, call, came)
    }

    // It tells how its transaction ended, and gives its seat back.
    fn finish(&self, session: Session<J>) -> Result<Seat<J>> {
        let (outcome, seat) = session.finish().ok().context("an outcome")?;
        line_ended(self.rt, self.who, outcome)?;
        Ok(seat)
    }
}

impl<'a, J: JournalId, R: Print + Wait> Side<'a, J, R> {
    // Two keys, one in each region, are locked for a commit in two phases.
    fn lock_both(&self, session: &mut Session<J>) -> Result<()> {
        self.put(session, "apple", "3", "put apple = 3")?;
        self.put(session, "pear", "5", "put pear = 5")?;
        self.declare(session, Mode::TwoPhase, "declare, two-phase")?;
        self.prewrite(session)?;
        self.prewrite(session)
    }

    // Both are committed.
    fn commit_both(&self, session: &mut Session<J>) -> Result<()> {
        self.draw(session)?;
        self.commit(session)?;
        self.commit(session)
    }

    // Both are read, and one is deleted by a transaction that commits asynchronously: with its lock
    // it is committed.
    fn delete_one(&self, session: &mut Session<J>) -> Result<()> {
        self.scan(session, "a", "z", "scan a to z")?;
        self.delete(session, "pear", "delete pear")?;
        self.declare(session, Mode::Async, "declare, async")?;
        self.prewrite(session)
    }
}

// The session, where what it did went well.
fn kept<J: JournalId>(session: Session<J>, done: Result<()>) -> Result<Session<J>> {
    match done {
        Ok(()) => Ok(session),
        Err(error) => {
            drop(session);
            Err(error)
        }
    }
}

impl<'a, J: JournalId, R: Print + Wait> Side<'a, J, R> {
    // It begins, and locks its two keys.
    fn write(&self, seat: Seat<J>) -> Result<Session<J>> {
        let mut session = self.begin(seat)?;
        let done = self.lock_both(&mut session);
        kept(session, done)
    }

    // It commits them, and ends.
    fn commit_all(&self, mut session: Session<J>) -> Result<()> {
        let done = self.commit_both(&mut session);
        let session = kept(session, done)?;
        drop(self.finish(session)?);
        Ok(())
    }

    // It begins, and reads one of them.
    fn look(&self, seat: Seat<J>) -> Result<Session<J>> {
        let mut session = self.begin(seat)?;
        let done = self.get(&mut session, "apple", "get apple");
        kept(session, done)
    }

    // It reads it again, and ends.
    fn look_again(&self, mut session: Session<J>) -> Result<Seat<J>> {
        let done = self.get(&mut session, "apple", "get apple");
        let session = kept(session, done)?;
        self.finish(session)
    }

    // It begins again, reads both and deletes one.
    fn tidy(&self, seat: Seat<J>) -> Result<()> {
        let mut session = self.begin(seat)?;
        let done = self.delete_one(&mut session);
        let session = kept(session, done)?;
        drop(self.finish(session)?);
        Ok(())
    }

    // B reads beside A, and then, begun again, sees what A committed.
    fn beside(&self, b: &Side<'a, J, R>, writer: Session<J>, seat: Seat<J>) -> Result<Seat<J>> {
        match b.look(seat) {
            Ok(reader) => match self.commit_all(writer) {
                Ok(()) => b.look_again(reader),
                Err(error) => {
                    drop(reader);
                    Err(error)
                }
            },
            Err(error) => {
                drop(writer);
                Err(error)
            }
        }
    }
}

/// Both sessions, turn by turn. A writes two keys, one in each region, in two phases; B reads
/// beside it, and then, begun again, sees what A committed, and deletes a key asynchronously.
pub fn tell<J: JournalId, R: Print + Wait>(
    rt: &R,
    alloc: Global,
    store: &Store<J, NestedCells>,
    a: Seat<J>,
    b: Seat<J>,
) -> Result<()> {
    let by_a = Side {
        rt,
        store,
        who: "A",
        alloc,
    };
    let by_b = Side {
        rt,
        store,
        who: "B",
        alloc,
    };
    match by_a.write(a) {
        Ok(writer) => {
            let seat = by_a.beside(&by_b, writer, b)?;
            by_b.tidy(seat)
        }
        Err(error) => {
            drop(b);
            Err(error)
        }
    }
}
