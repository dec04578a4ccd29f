//! The context of a session: how it reaches the regions, and resolves what stands in its way.
ghost use Rattle.std.specs.Prelude.{◌≡◌, ◌≤◌, IfOk, IfErr, OnErr};
ghost use Rattle.tx_types.specs.Keys.{AreRising};
ghost use Rattle.tx_types.specs.declared.fault.Fault.TheVariants as fault;
ghost use Rattle.tx_core.specs.Histories.{last};
ghost use Rattle.tx_core.specs.Laws.{WasToldOf};
ghost use Rattle.tx_journal.specs.Known.{greatest_ts};
ghost use Rattle.tx_journal.specs.Senders.{IsSender};
ghost use Rattle.tx_client.specs.Calls.{KeepsSet};
ghost use Rattle.tx_transfer.specs.Collections.{Collects};
ghost use Rattle.tx_transfer.specs.RequestCounts.{with_maybe};
ghost use Rattle.tx_transfer.specs.Resolutions.{HasLooked, Resolves, ResolvesMet};
ghost use Rattle.tx_transfer.specs.Sends.{RepliesOver};

use crate::refusals::Refusals;
use std::alloc::Global;
use std::sync::{Arc, Wait};
use tx_cells::Families;
use tx_client::{Resolved, Session, Status};
use tx_journal::{JournalId, Lost, Reply, Request, Seat, Sender, Told};
use tx_resolve::{gc, resolve};
use tx_store::{Store, Wire};
use tx_types::{Fault, Key, LockInfo, Ts};

/// What the calls of a session need: a way to the store, by which they send, and a seat that
/// resolves. It counts what stands in the way of what is sent, but not of what resolves or
/// collects.
#[derive(Drop)]
pub struct Context<J: JournalId, F: Families + Drop, R: Wait + Drop> {
    pub alloc: Global,
    rt: R,
    store: Arc<Store<J, F>>,
    resolver: Seat<J>,
    refusals: Refusals,
}

impl<J: JournalId, F: Families + Drop, R: Wait + Drop> Context<J, F, R> {
    /// That of a session whose locks wait by `rt`, with a seat that resolves for it.
    pub fn new(alloc: Global, rt: R, store: Arc<Store<J, F>>, resolver: Seat<J>) -> Context<J, F, R>
        ensures resolver { result.resolver ≡ resolver }
        ensures refusals { result.refusals ≡ Refusals.NONE }
    {
        Context {
            alloc,
            rt,
            store,
            resolver,
            refusals: Refusals::NONE,
        }
    }

    /// The seat that resolves for it.
    pub fn resolver(&self) -> &Seat<J>
        ensures { result.now ≡ self.now.resolver }
    {
        &self.resolver
    }

    /// What stood in the way of its requests, and how many locks it asked after.
    pub fn refusals(&self) -> Refusals
        ensures { result ≡ self.now.refusals }
    {
        self.refusals
    }

    /// For proofs: the keys between the regions rise, it takes what some region holds, and a reply
    /// is to the request that was sent. It does nothing when it runs.
    pub fn show(&self)
        ensures rising { AreRising J.bounds }
        ensures way { IsSender J.bounds
            ⟦<Context<J, F, R> as Sender<Request<J>, Reply<J>>>⟧.fits
            ⟦<Context<J, F, R> as Sender<Request<J>, Reply<J>>>⟧.sends
            ⟦<Context<J, F, R> as Sender<Request<J>, Reply<J>>>⟧.keys_between }
        ensures replies { RepliesOver ⟦<Context<J, F, R> as Sender<Request<J>, Reply<J>>>⟧.sends }
    {
        let _ = self.store.bounds();
    }

    // Counts what a request was answered.
    fn note(&mut self, reply: &Reply<J>)
        ensures { self.new ≡ record self.old { refusals = with_maybe self.old.refusals reply.now.answer } }
    {
        if let Some(answer) = reply.answer() {
            self.refusals.add(answer);
        }
    }
}

// A way to the regions of the store, which counts what stands in the way of each request.
impl<J: JournalId, F: Families + Drop, R: Wait + Drop> Sender<Request<J>, Reply<J>>
    for Context<J, F, R> {
    ghost use Rattle.std.specs.Prelude.{◌≡◌};
    ghost use Rattle.tx_store.specs.Stores.{Replies, TakesHeld};
    ghost use Rattle.tx_transfer.specs.RequestCounts.{with_reached};

    ghost fits = { TakesHeld J.bounds };

    ghost sends = { λ a q r b. Replies a q r b × (b ≡ record a { refusals = with_reached a.refusals r }) };

    ghost keys_between = { λ a. J.bounds };

    fn send(&mut self, request: Request<J>) -> Result<Reply<J>, Lost> {
        let reply = self.store.run(&self.rt, request);
        self.note(&reply);
        Ok(reply)
    }

    fn send_in(&mut self, place: &mut Option<Reply<J>>) {
        if let Some(reply) = place {
            self.store.run_in(&self.rt, reply);
            self.note(&*reply);
        }
    }

    fn bounds(&self) -> &[Key] {
        self.store.bounds()
    }
}

impl<J: JournalId, F: Families + Drop, R: Wait + Drop> Context<J, F, R> {
    // Finds what became of the transaction of this lock, which stood in the way of a reader.
    fn resolve_lock(
        &mut self,
        info: &LockInfo,
        told: Told<J>,
        reader: Ts,
        now: Option<Ts>,
    ) -> Resolved<J>
        requires { WasToldOf told info.now }
        ensures start { result.start ≡ info.now.start }
        ensures sends { Resolves J.bounds self.old.resolver info.now told reader now result.status self.new.resolver }
        ensures told { result.events ≡ self.new.resolver.events }
    {
        self.resolver.learn(told);
        let last = self.resolver.last();
        let mut wire = Wire::new(&self.rt, &self.store);
        wire.show();
        resolve(
            &mut self.resolver,
            info,
            reader,
            now.unwrap_or(last),
            &mut wire,
        )
    }

    /// Resolves the lock that last stood in the session's way, at this time or at the last
    /// timestamp that was drawn, and tells the session. None where no lock stood in its way.
    pub fn resolve(
        &mut self,
        session: &mut Session<J>,
        now: Option<Ts>,
    ) -> Result<Option<Status>, Fault>
        ensures ok { IfOk result (λ found. ResolvesMet J.bounds session.old self.old.resolver session.old.state.met now
            found session.new self.new.resolver) }
        ensures same { OnErr result (session.new ≡ session.old) }
        ensures err { IfErr result (λ e. e ≡ fault.OutOfMemory) }
        ensures keeps { KeepsSet session.old.state session.new.state }
    {
        let Some(met) = session.met()? else {
            return Ok(None);
        };
        self.refusals.add_resolve();
        let (info, told) = met.into_parts();
        let resolved = self.resolve_lock(&info, told, session.start(), now);
        let status = resolved.status();
        session.learn(resolved)?;
        Ok(Some(status))
    }

    /// The last timestamp that was drawn.
    pub fn last(&mut self) -> Ts
        ensures looks { HasLooked J.bounds self.old.resolver self.new.resolver }
        ensures last { (result ≡ last self.new.resolver.events) × (result ≤ greatest_ts) }
        ensures refusals { self.new.refusals ≡ self.old.refusals }
    {
        self.resolver.last()
    }

    /// Collects at this safe point in each region, and says how many write records that
    /// dropped: 0 where it was refused, though regions before the refusal may have dropped
    /// some. It may be asked again.
    pub fn collect(&mut self, safe: Ts) -> u64
        ensures collects { Collects J.bounds self.old.resolver safe result self.new.resolver }
        ensures refusals { self.new.refusals ≡ self.old.refusals }
    {
        let mut wire = Wire::new(&self.rt, &self.store);
        wire.show();
        match gc(&mut self.resolver, safe, &mut wire) {
            Ok(counts) => counts.records,
            Err(_) => 0,
        }
    }
}
