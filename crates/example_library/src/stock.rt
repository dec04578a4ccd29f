//! A stock that is counted while it is sold: a timestamp is kept, at which all stays as it was, the
//! items are gone over page by page, and the client collects old versions by itself.
use std::sync::Wait;
use std::thread::Threads;
use tx_kv::*;

// How many items there are.
const ITEMS: u8 = 5;

/// Puts ten of each item.
#[derive(Drop)]
struct Fill;

impl Work for Fill {
    type Out = ();

    type Err = ();

    fn apply<T: Tx>(&mut self, tx: &mut T) -> Result<(), Failure<()>> {
        for item in 0..ITEMS {
            let key = Key::new(tx.alloc(), &[b'i', b't', b'e', b'm', b'/', item])?;
            put_number(tx, key, 10)?;
        }
        Ok(())
    }
}

/// Takes one of each item, two items a page.
#[derive(Drop)]
struct Sell;

impl Work for Sell {
    type Out = ();

    type Err = ();

    fn apply<T: Tx>(&mut self, tx: &mut T) -> Result<(), Failure<()>> {
        let mut rest = Some(KeyRange::prefix(tx.alloc(), b"item/")?);
        for _ in 0..ITEMS {
            let Some(range) = rest.take() else {
                break;
            };
            let page = tx.page(range, 2)?;
            for row in page.rows {
                let held = unpack_number(&row.value).unwrap_or(0);
                put_number(tx, row.key, held.saturating_sub(1))?;
            }
            rest = page.rest;
        }
        Ok(())
    }
}

// What a view shows of all items together.
fn stock<J: JournalId, R: Wait>(mut view: View<'_, '_, J, R>) -> Result<u64, Stop> {
    let items = view.range_prefix(b"item/")?;
    Ok(sum_of(items.as_slice()))
}

/// A stock that is filled, and then sold.
#[derive(Drop)]
struct Shop;

impl<R: Wait + Print> Program<R> for Shop {
    type Out = ();

    type Answer = anyhow::Result<()>;

    fn maps(&self) -> Maps {
        Maps::Flat
    }

    fn run<J: JournalId>(&self, _: &mut Client<'_, J, R>) {}

    fn end<J: JournalId>(self, client: &mut Client<'_, J, R>, _: Vec<()>) -> Self::Answer {
        client.update(&mut Fill)?;
        client.collect_every(2);
        let pin = client.pin()?;
        for _ in 0..6u8 {
            client.update(&mut Sell)?;
        }
        let kept = stock(client.view_at(pin.at()))?;
        drop(pin);
        let left = stock(client.view()?)?;
        let (rt, times) = (client.rt(), client.stats().collections);
        Ok(println!(rt; "{kept} in stock, {left} left, old versions collected {times} times")?)
    }
}

/// Opens a store of two regions, and sells what is in it.
pub fn show<R: Print + AllocGlobal + Threads + Wait + Sync>(rt: &R) -> anyhow::Result<()> {
    with_store(rt, rt.alloc(), &[b"item/\x02"], 0, Shop)?
}
