//! The steps of a round of edges, each with its ground.
ghost use Rattle.tx_history.specs.Records.{IsRecorded};

use crate::pairs::Pairs;
use std::alloc::{AllocError, Global};
use tx_chains::number;
use tx_verdict::{Behind, CycleStep, EdgeKind, Ground, Stretch, Versions, WriteOrder};
use tx_web::{ChainOrder, Link, LinkReason, Loose};

/// A literal that is known in a lemma, and its place among all orders that are known there.
#[derive(Clone, Copy)]
pub(crate) struct Chosen {
    pub(crate) literal: u32,
    pub(crate) place: u32,
}

/// What steps are made of.
#[derive(Drop)]
pub(crate) struct Book<'a> {
    // how many transactions are no moments of the clock
    pub(crate) txns: u32,
    pub(crate) loose: &'a [Loose],
    pub(crate) found: &'a [ChainOrder],
    // by order that was found: its place among those that are told
    pub(crate) places: Vec<u32>,
    pub(crate) pairs: Option<&'a Pairs>,
    pub(crate) chosen: Vec<Chosen>,
}

/// Steps so far.
#[derive(Drop)]
pub(crate) struct Trail {
    pub(crate) steps: Vec<CycleStep>,
    pub(crate) grounds: Vec<Ground>,
    // from where a way over moments of the clock began
    began: Option<u32>,
    // who saw the last version of a chain, and in which view
    reader: Option<(u32, u32)>,
}

// The first, the last or all versions of a chain.
pub(crate) fn first_of(chain: Loose) -> Stretch {
    Stretch {
        chain: chain.chain,
        first: 0,
        last: 0,
    }
}

pub(crate) fn last_of(chain: Loose) -> Stretch {
    let last = chain.count.saturating_sub(1);
    Stretch {
        chain: chain.chain,
        first: last,
        last,
    }
}

fn all_of(chain: Loose) -> Stretch {
    Stretch {
        chain: chain.chain,
        first: 0,
        last: chain.count.saturating_sub(1),
    }
}

impl Book<'_> {
    // The two chains of an order that was found, and its place among those that are told.
    fn pair(&self, found: u32) -> Option<(Loose, Loose, u32)> {
        let order = self.found.get(found as usize)?;
        let before = self.loose.get(order.before as usize)?;
        let behind = self.loose.get(order.behind as usize)?;
        let place = self.places.get(found as usize)?;
        Some((*before, *behind, *place))
    }

    // The two chains of a literal's pair, that of the lesser place first, and its place among all
    // orders that are known.
    pub(crate) fn chosen(&self, literal: u32) -> Option<(Loose, Loose, u32)> {
        let (one, other) = self.pairs?.ends(literal)?;
        let first = self.loose.get(one as usize)?;
        let second = self.loose.get(other as usize)?;
        let place = self.place_of(literal)?;
        Some((*first, *second, place))
    }

    // The place of a literal among all orders that are known.
    fn place_of(&self, literal: u32) -> Option<u32> {
        let chosen = self.chosen.as_slice();
        for i in 0..chosen.len() {
            if chosen[i].literal == literal {
                return Some(chosen[i].place);
            }
        }
        None
    }

    // The order that was found.
    pub(crate) fn order(&self, found: u32) -> WriteOrder {
        match self.pair(found) {
            Some((before, behind, _)) => WriteOrder {
                key: before.key,
                first: before.last,
                second: behind.first,
            },
            None => WriteOrder {
                key: 0,
                first: 0,
                second: 0,
            },
        }
    }
}

// What a reader of the last version of a chain that is known missed.
fn past(versions: &Versions, view: u32, chain: u32) -> Ground
    requires { IsRecorded versions.now.recorded }
{
    let writers = versions.recorded.writers_of(chain as usize);
    let count = writers.len();
    if count == 0 {
        return Ground::Nothing(view);
    }
    Ground::Missed(view, writers[count - 1], Behind::Row(chain, number(count)))
}

// By an order that is told, or by its opposite: the key, the last writer before, and why.
fn by_order(pair: (Loose, Loose, u32), opposite: bool) -> (u32, u32, Behind) {
    let (before, behind, place) = pair;
    if opposite {
        return (
            before.key,
            behind.last,
            Behind::Known(place, all_of(behind), all_of(before)),
        );
    }
    (
        before.key,
        before.last,
        Behind::Known(place, last_of(before), first_of(behind)),
    )
}

impl Trail {
    pub(crate) fn new(alloc: Global) -> Trail {
        Trail {
            steps: Vec::new(alloc),
            grounds: Vec::new(alloc),
            began: None,
            reader: None,
        }
    }

    // Adds a step with a key.
    pub(crate) fn push(
        &mut self,
        from: u32,
        edge: EdgeKind,
        key: Option<u32>,
        to: u32,
        ground: Ground,
    ) -> Result<(), AllocError> {
        self.steps.push(CycleStep {
            from,
            edge,
            key,
            to,
        })?;
        self.grounds.push(ground)?;
        Ok(())
    }

    // Adds a step of the orders that are asked for, unless it leads to a moment of the clock.
    fn after(&mut self, txns: u32, from: u32, to: u32) -> Result<(), AllocError> {
        if to >= txns {
            self.began = Some(self.began.unwrap_or(from));
            return Ok(());
        }
        match self.began {
            Some(began) => {
                self.began = None;
                self.push(began, EdgeKind::Rt, None, to, Ground::Asked)
            }
            None => self.push(from, EdgeKind::So, None, to, Ground::Asked),
        }
    }

    // Adds the step of a reader.
    fn missed(&mut self, key: u32, to: u32, ground: Ground) -> Result<(), AllocError> {
        let from = match self.reader {
            Some((reader, _)) => reader,
            None => 0,
        };
        self.push(from, EdgeKind::Rw, Some(key), to, ground)
    }

    // The view of the reader.
    fn view(&self) -> u32 {
        match self.reader {
            Some((_, view)) => view,
            None => 0,
        }
    }

    // Adds a step by an order that is told.
    fn known(
        &mut self,
        link: Link,
        pair: Option<(Loose, Loose, u32)>,
        opposite: bool,
        past: bool,
    ) -> Result<(), AllocError> {
        let Some(pair) = pair else {
            return Ok(());
        };
        let (key, last, behind) = by_order(pair, opposite);
        let to = link.to / 2;
        if past {
            let view = self.view();
            return self.missed(key, to, Ground::Missed(view, last, behind));
        }
        let ground = Ground::Written(behind);
        self.push(link.from / 2, EdgeKind::Ww, Some(key), to, ground)
    }

    // Adds the step of an edge.
    fn add(&mut self, book: &Book<'_>, versions: &Versions, link: Link) -> Result<(), AllocError>
        requires { IsRecorded versions.now.recorded }
    {
        let from = link.from / 2;
        let to = link.to / 2;
        match link.why {
            LinkReason::Own => Ok(()),
            LinkReason::After => self.after(book.txns, from, to),
            LinkReason::Wrote(key, behind) => {
                self.push(from, EdgeKind::Ww, Some(key), to, Ground::Written(behind))
            }
            LinkReason::Saw(key, view) => self.push(
                from,
                EdgeKind::Wr,
                Some(key),
                to,
                Ground::Seen(view),
            ),
            LinkReason::Missed(key, ground) => self.push(from, EdgeKind::Rw, Some(key), to, ground),
            LinkReason::Reads(view) => {
                self.reader = Some((from, view));
                Ok(())
            }
            LinkReason::Past(key) => {
                let ground = past(versions, self.view(), key);
                self.missed(key, to, ground)
            }
            LinkReason::Found(found) => self.known(link, book.pair(found), false, false),
            LinkReason::FoundPast(found) => self.known(link, book.pair(found), false, true),
            LinkReason::Opposite(found) => self.known(link, book.pair(found), true, false),
            LinkReason::OppositePast(found) => self.known(link, book.pair(found), true, true),
            LinkReason::Chosen(literal) => self.known(
                link,
                book.chosen(literal),
                literal % 2 == 1,
                false,
            ),
            LinkReason::ChosenPast(literal) => {
                self.known(link, book.chosen(literal), literal % 2 == 1, true)
            }
        }
    }
}

/// The steps of edges.
pub(crate) fn trail_of(
    alloc: Global,
    book: &Book<'_>,
    versions: &Versions,
    links: &[Link],
) -> Result<Trail, AllocError>
    requires { IsRecorded versions.now.recorded }
{
    let mut trail = Trail::new(alloc);
    for i in 0..links.len() {
        trail.add(book, versions, links[i])?;
    }
    Ok(trail)
}
