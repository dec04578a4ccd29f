//! How much a store holds, of more rows than a page has, and with the greatest key.
use crate::tests::ranges::Fill;
use std::sync::Wait;
use std::test::Fail;
use tx_kv::{
    Client, Failure, JournalId, Key, Mode, Program, Size, Stop, Terms, Ts, Tx, Value, Work,
    with_store,
};

/// Puts two bytes on the greatest key.
#[derive(Drop)]
struct Top;

impl Work for Top {
    type Out = ();

    type Err = ();

    fn apply<T: Tx>(&mut self, tx: &mut T) -> Result<(), Failure<()>> {
        let key = Key::new(tx.alloc(), &[255; 512])?;
        let value = Value::new(tx.alloc(), b"no")?;
        Ok(tx.put(key, value)?)
    }
}

// How much is seen as it is now, as it was before the second half was written, of a part, and of a
// range that ends where it begins.
fn sizes<J: JournalId, R: Wait>(
    client: &mut Client<'_, J, R>,
    half: Ts,
) -> Result<[Size; 4], Stop> {
    let from = Key::new(client.alloc(), b"k\x02")?;
    let to = Key::new(client.alloc(), b"k\x04")?;
    let before = client.view_at(half).size(None, None)?;
    let mut view = client.view()?;
    let Size { keys, bytes } = view.size(None, None)?;
    let part = view.size(Some(from.clone()?), Some(to))?;
    let none = view.size(Some(from.clone()?), Some(from))?;
    Ok([Size { keys, bytes }, before, part, none])
}

#[derive(Drop)]
struct Story;

impl<R: Wait> Program<R> for Story {
    type Out = ();

    type Answer = Option<[Size; 4]>;

    fn run<J: JournalId>(&self, client: &mut Client<'_, J, R>) {
        let _ = client;
    }

    fn end<J: JournalId>(self, client: &mut Client<'_, J, R>, _: Vec<()>) -> Self::Answer {
        let terms = Terms {
            mode: Mode::TwoPhase,
            ttl: 1_000,
            max_commit: None,
        };
        client.set_terms(terms, 0);
        drop(client.update(&mut Fill(0)).ok()?);
        drop(client.update(&mut Fill(600)).ok()?);
        let half = client.timestamp().ok()?;
        drop(client.update(&mut Fill(1_200)).ok()?);
        drop(client.update(&mut Fill(1_800)).ok()?);
        drop(client.update(&mut Top).ok()?);
        sizes(client, half).ok()
    }
}

#[test]
fn what_is_held_is_counted(rt: HostRuntime) -> Result<(), Fail> {
    let told = with_store(&rt, rt.alloc(), &[b"k\x03", b"m"], 1, Story);
    let size = |keys: u64, bytes: u64| Size { keys, bytes };
    let Ok(Some(sizes)) = told else {
        assert!(rt; false);
        return Ok(());
    };
    assert!(rt; sizes[0] == size(2_401, 2_400 * 4 + 514));
    assert!(rt; sizes[1] == size(1_200, 1_200 * 4) && sizes[2] == size(512, 512 * 4));
    assert!(rt; sizes[3] == size(0, 0));
    Ok(())
}
