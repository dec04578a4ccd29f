//! The graph of versions of which the order is not known in some keys, with why each edge is there.
ghost use Rattle.tx_history.specs.Records.{IsRecorded};

use crate::lists::Lists;
use std::alloc::{AllocError, Global};
use tx_chains::{Extras, number};
use tx_verdict::{Base, Behind, Ground, Level, Versions};

/// Why an edge is there.
#[derive(Clone, Copy)]
pub enum LinkReason {
    /// It leads from the start of a transaction to its commit.
    Own,
    /// An order that is asked for.
    After,
    /// The second wrote this key behind the first.
    Wrote(u32, Behind),
    /// The second saw in this view of this key what the first had put.
    Saw(u32, u32),
    /// The first did not see what the second wrote into this key.
    Missed(u32, Ground),
    /// The first saw in this view the last version of the chain behind whose readers the node is.
    Reads(u32),
    /// The second wrote behind all versions of this chain.
    Past(u32),
    /// The order that was found at this place.
    Found(u32),
    /// The same of those who saw the last version before it.
    FoundPast(u32),
    /// The opposite of the order that was found at this place.
    Opposite(u32),
    /// The same of those who saw the last version before it.
    OppositePast(u32),
    /// The order that this literal says.
    Chosen(u32),
    /// The same of those who saw the last version before it.
    ChosenPast(u32),
}

/// An edge.
#[derive(Clone, Copy)]
pub struct Link {
    pub from: u32,
    pub to: u32,
    pub why: LinkReason,
}

/// A chain of which nobody knows the place among the versions of its key.
#[derive(Clone, Copy)]
pub struct Loose {
    pub key: u32,
    pub chain: u32,
    pub count: u32,
    pub first: u32,
    pub last: u32,
    /// Whether somebody saw its last version.
    pub read: bool,
}

/// A graph: behind the starts and the commits of its transactions it has a node for each chain,
/// behind those who saw the last version of it.
#[derive(Drop)]
pub struct Web {
    pub level: Level,
    pub txns: u32,
    pub nodes: u32,
    pub links: Vec<Link>,
}

/// The start of a transaction.
pub fn start_of(txn: u32) -> u32 {
    number(2 * txn as usize)
}

/// The commit of a transaction.
pub fn commit_of(txn: u32) -> u32 {
    number(2 * txn as usize + 1)
}

impl Web {
    /// The node of a chain.
    pub fn chain_node(&self, chain: u32) -> u32 {
        number(2 * self.txns as usize + chain as usize)
    }

    /// Where an anti-dependency of one who did not see something begins: at the start, or in a
    /// serial execution at the commit.
    pub fn reader_node(&self, txn: u32) -> u32 {
        match self.level {
            Level::Snapshot => start_of(txn),
            Level::Serializable => commit_of(txn),
        }
    }

    /// Where it leads to, of who wrote that: the commit, or in a serial execution the start.
    pub fn writer_node(&self, txn: u32) -> u32 {
        match self.level {
            Level::Snapshot => commit_of(txn),
            Level::Serializable => start_of(txn),
        }
    }

    /// Adds an edge, if its nodes are there.
    pub fn add(&mut self, from: u32, to: u32, why: LinkReason) -> Result<(), AllocError> {
        if from < self.nodes && to < self.nodes {
            self.links.push(Link { from, to, why })?;
        }
        Ok(())
    }

    /// The edges of each node.
    pub fn by_node(&self, alloc: Global) -> Result<Lists, AllocError> {
        let mut by_node = Lists::new(alloc, self.nodes as usize, self.links.len())?;
        for i in 0..self.links.len() {
            if let Some(link) = self.links.get(i) {
                by_node.push(link.from as usize, number(i));
            }
        }
        Ok(by_node)
    }
}

// Why the writer of a version wrote behind the one before it.
fn behind_of(versions: &Versions, chain: u32, place: u32) -> Behind {
    match versions.base_of(chain as usize, place as usize) {
        Base::Blind => Behind::Row(chain, place),
        Base::View(_) | Base::Within(..) => Behind::Next(chain, place),
    }
}

// Adds that each transaction commits behind its start.
fn add_own(web: &mut Web) -> Result<(), AllocError> {
    for txn in 0..web.txns {
        web.add(start_of(txn), commit_of(txn), LinkReason::Own)?;
    }
    Ok(())
}

// Adds what comes after what.
fn add_after(web: &mut Web, versions: &Versions) -> Result<(), AllocError> {
    for i in 0..versions.recorded.after.len() {
        let pair = versions.recorded.after[i];
        web.add(
            commit_of(pair.earlier),
            start_of(pair.later),
            LinkReason::After,
        )?;
    }
    Ok(())
}

// The key of a chain.
fn key_of(versions: &Versions, chain: u32) -> u32 {
    match versions.names.get(chain as usize) {
        Some(key) => *key,
        None => 0,
    }
}

// Adds that the versions of a chain come one behind the other.
fn add_chain(web: &mut Web, versions: &Versions, chain: u32) -> Result<(), AllocError>
    requires { IsRecorded versions.now.recorded }
{
    let key = key_of(versions, chain);
    let writers = versions.recorded.writers_of(chain as usize);
    for i in 1..writers.len() {
        let why = LinkReason::Wrote(key, behind_of(versions, chain, number(i)));
        web.add(commit_of(writers[i - 1]), start_of(writers[i]), why)?;
    }
    Ok(())
}

// What a reader of a version missed of the next one.
fn missed(versions: &Versions, writers: &[u32], view: u32, chain: u32, version: u32) -> Ground {
    let place = version as usize;
    if place == 0 || place > writers.len() {
        return Ground::Nothing(view);
    }
    Ground::Missed(
        view,
        writers[place - 1],
        behind_of(versions, chain, version),
    )
}

// Adds what a view says.
fn add_view(web: &mut Web, versions: &Versions, view: usize) -> Result<(), AllocError>
    requires { IsRecorded versions.now.recorded }
{
    let Some(read) = versions.recorded.reads.get(view) else {
        return Ok(());
    };
    let key = key_of(versions, read.key);
    let writers = versions.recorded.writers_of(read.key as usize);
    let version = read.version as usize;
    let place = number(view);
    if version > 0 && version <= writers.len() {
        let why = LinkReason::Saw(key, place);
        web.add(commit_of(writers[version - 1]), start_of(read.txn), why)?;
    }
    if version >= writers.len() {
        let node = web.chain_node(read.key);
        let from = web.reader_node(read.txn);
        return web.add(from, node, LinkReason::Reads(place));
    }
    if writers[version] != read.txn {
        let ground = missed(versions, writers, place, read.key, read.version);
        let why = LinkReason::Missed(key, ground);
        let from = web.reader_node(read.txn);
        let to = web.writer_node(writers[version]);
        web.add(from, to, why)?;
    }
    Ok(())
}

// Adds that a chain comes behind all that is known of its key.
fn add_loose(web: &mut Web, versions: &Versions, loose: Loose) -> Result<(), AllocError>
    requires { IsRecorded versions.now.recorded }
{
    let writers = versions.recorded.writers_of(loose.key as usize);
    let count = writers.len();
    let node = web.chain_node(loose.key);
    let first = web.writer_node(loose.first);
    web.add(node, first, LinkReason::Past(loose.key))?;
    if count > 0 {
        let row = Behind::Row(loose.key, number(count));
        let from = commit_of(writers[count - 1]);
        web.add(
            from,
            start_of(loose.first),
            LinkReason::Wrote(loose.key, row),
        )?;
    }
    Ok(())
}

// A chain, if it has a version.
fn loose_of(versions: &Versions, chain: u32) -> Option<Loose>
    requires { IsRecorded versions.now.recorded }
{
    let writers = versions.recorded.writers_of(chain as usize);
    let count = writers.len();
    if count == 0 {
        return None;
    }
    Some(Loose {
        key: key_of(versions, chain),
        chain,
        count: number(count),
        first: writers[0],
        last: writers[count - 1],
        read: false,
    })
}

// Notes of which chains somebody saw the last version.
fn note_reads(loose: &mut Vec<Loose>, versions: &Versions, keys: u32) {
    let first = match loose.first() {
        Some(first) => first.chain,
        None => keys,
    };
    for i in 0..versions.recorded.reads.len() {
        let read = versions.recorded.reads[i];
        if read.key < first {
            continue;
        }
        let place = (read.key - first) as usize;
        if let Some(chain) = loose.get_mut(place) {
            if chain.chain == read.key && read.version == chain.count {
                chain.read = true;
            }
        }
    }
}

/// The chains of which nobody knows the place among the versions of their keys.
pub fn loose_chains(
    alloc: Global,
    versions: &Versions,
    extras: &Extras,
    keys: u32,
) -> Result<Vec<Loose>, AllocError>
    requires { IsRecorded versions.now.recorded }
{
    let mut loose = Vec::new(alloc);
    for chain in keys as usize..versions.names.len() {
        if let Some(one) = loose_of(versions, number(chain)) {
            if extras.is_open(one.key) {
                loose.push(one)?;
            }
        }
    }
    note_reads(&mut loose, versions, keys);
    Ok(loose)
}

/// The graph of a history of these chains, those of the keys first, and what holds in each order of
/// the others, at a level.
pub fn web_of(
    alloc: Global,
    level: Level,
    versions: &Versions,
    views: usize,
    loose: &[Loose],
) -> Result<Web, AllocError>
    requires { IsRecorded versions.now.recorded }
{
    let txns = versions.recorded.txns;
    let mut web = Web {
        level,
        txns,
        nodes: number(2 * txns as usize + versions.names.len().min(0x8000_0000)),
        links: Vec::new(alloc),
    };
    add_own(&mut web)?;
    add_after(&mut web, versions)?;
    add_chains(&mut web, versions)?;
    add_views(&mut web, versions, views)?;
    add_all_loose(&mut web, versions, loose)?;
    Ok(web)
}

// Adds that the versions of each chain come one behind the other.
fn add_chains(web: &mut Web, versions: &Versions) -> Result<(), AllocError>
    requires { IsRecorded versions.now.recorded }
{
    for chain in 0..versions.names.len() {
        add_chain(web, versions, number(chain))?;
    }
    Ok(())
}

// Adds what each view says.
fn add_views(web: &mut Web, versions: &Versions, views: usize) -> Result<(), AllocError>
    requires { IsRecorded versions.now.recorded }
{
    for view in 0..views {
        add_view(web, versions, view)?;
    }
    Ok(())
}

// Adds that each of these chains comes behind all that is known of its key.
fn add_all_loose(web: &mut Web, versions: &Versions, loose: &[Loose]) -> Result<(), AllocError>
    requires { IsRecorded versions.now.recorded }
{
    for i in 0..loose.len() {
        add_loose(web, versions, loose[i])?;
    }
    Ok(())
}
