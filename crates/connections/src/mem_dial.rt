ghost use Rattle.std.specs.Prelude.{◌≡◌, ◌≢◌, ℕ, ◌≤◌, ◌↔◌, List, [], Option, Some, None, Err, IfSome, IfOk, OnOk, OnErr, IsErr};
ghost use Rattle.dt_base.specs.Faults.{Rose};
ghost use Rattle.connections.specs.Records.{LinkRecord};
ghost use Rattle.connections.specs.Turns.{turn_record, IsFresh};
ghost use Rattle.connections.specs.MemRecords.{record_of};
ghost use Rattle.connections.specs.declared.dial.DialEnd.TheVariants.{Failed};

use crate::{Dial, DialEnd, Gone, MemLink};
use std::mem;

/// A dial in memory, which gives one link, and fails without one.
#[derive(Drop)]
pub struct MemDial {
    link: Option<MemLink>,
    faults: u64,
    lost: u64,
    gone: Gone,
    ghost fresh: { ∥ IsFresh link ∥₁ },
}

impl MemDial {
    /// A dial that gives this link. Where there is none, and after it was given, the dial fails. It takes no memory.
    pub fn new(link: Option<MemLink>) -> MemDial
        requires fresh { IsFresh link }
        ensures ahead { ⟦<MemDial as Dial>⟧.ahead result ≡ Some (turn_record link) }
        ensures gone { ⟦<MemDial as Dial>⟧.gone result ≡ Some [] }
        ensures lost { ⟦<MemDial as Dial>⟧.lost result ≡ 0 }
        ensures faults { ⟦<MemDial as Dial>⟧.faults result ≡ 0 }
    {
        MemDial {
            link,
            faults: 0,
            lost: 0,
            gone: Gone::new(),
        }
    }

    /// The links that were handed back.
    pub fn gone(&self) -> &Gone
        ensures { ⟦<MemDial as Dial>⟧.gone self.now ≡ Some result.now }
    {
        &self.gone
    }
}

impl Dial for MemDial {
    type Link = MemLink;

    ghost faults = { λ d. d.faults };

    ghost lost = { λ d. d.lost };

    ghost ahead = { λ d. Some (turn_record d.link) };

    ghost gone = { λ d. Some d.gone };

    /// Fails exactly where no link is left.
    fn dial(&mut self, _host: &str, _port: u16) -> Result<MemLink, DialEnd>
        ensures fresh { IfOk result (λ link. link.faults ≡ 0) }
        ensures given { IfOk result (λ link. turn_record self.old.link
            ≡ Some (record_of link.link link.faults)) }
        ensures failed { result ≡ Err Failed → turn_record self.old.link ≡ None }
        ensures cause { result ≡ Err Failed → Rose self.old.faults self.new.faults }
        ensures count { self.old.faults ≤ self.new.faults }
        ensures lost { self.new.lost ≡ self.old.lost }
        ensures gone { Some self.new.gone ≡ Some self.old.gone }
        ensures answer { OnErr result (result ≡ Err Failed) }
        ensures empty { self.new.link ≡ None }
    {
        let Some(link) = mem::replace(&mut self.link, None) else {
            self.faults = self.faults.saturating_add(1);
            return Err(DialEnd::Failed);
        };
        Ok(link)
    }

    fn done(&mut self, link: MemLink) {
        if link.faults > 0 {
            self.lost = self.lost.saturating_add(1);
        }
        let before = mem::replace(&mut self.gone, Gone::new());
        self.gone = Gone::with(before, link.link, link.faults, link.room);
    }
}
