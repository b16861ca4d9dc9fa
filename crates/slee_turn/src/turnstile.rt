//! A value behind a turnstile, which one pass at a time has.
ghost use Rattle.std.specs.Prelude.{◌≡◌, ◌<◌, ◌≤◌, [], length, IfOk, IfErr};
ghost use mathlib.Core.List.{IsPrefix};
ghost use Rattle.slee_turn.specs.Numbers.{IsAmong, AreDisjoint};
ghost use Rattle.slee_turn.specs.Knowledge.{heard_known, parted_known, part_known, joined_known};
ghost use Rattle.slee_turn.specs.Passes.{Continues, HasTaken, HasTurnOf, IsFreeOf, Tries, first_pass, given, informed, new_pass};

use crate::grows::Grows;
use crate::pass::Pass;
use crate::steps::{
    Board, FIRST, Frees, HOLDER, Hears, LENGTH, Looks, NOBODY, Parts, Takes, Tells, VALUE,
};
use crate::turn::Turn;
use atomic_table::{Refused, Table};
use crossbeam_utils::Backoff;
use slee_value::NoMemory;
use std::alloc::{AllocFailed, Global};
use std::marker::Model;
use std::snapshot::Snapshot;
use std::sync::Wait;

/// A value that one pass at a time has. Contracts see it as the name of its table, by which it is told whose pass a pass is.
#[derive(Drop)]
pub struct Turnstile<G: Grows + Send> {
    board: Board<G>,
}

impl<G: Grows + Send> Model for Turnstile<G> {
    ghost use Rattle.std.specs.Prelude.{◌≡◌};
    ghost use Rattle.atomic_table.specs.Seated.{TableId};

    ghost Value = { TableId };

    ghost view = { λ t. t.board.shared.table_id };

    ghost invariant = { λ t. (t.board.shared.table_id.words ≡ 2) × (t.board.shared.table_id.slots ≡ 1) };
}

impl<G: Grows + Send> Turnstile<G> {
    /// Puts a value behind a turnstile, and answers it with the first pass.
    pub fn new(alloc: Global, value: G) -> Result<(Turnstile<G>, Pass<G>), (NoMemory, G)>
        ensures ok { IfOk result (λ t. t.1 ≡ first_pass t.0 (G.setup value) (G.history value)) }
        ensures err { IfErr result (λ e. e.1 ≡ value) }
    {
        let about = Snapshot::of(&value);
        let words = [NOBODY, value.length()];
        let mut slots = Vec::new(alloc);
        if let Err(AllocFailed { value }) = slots.push(Some(value)) {
            slots.destroy_empty();
            return Err((NoMemory, value.unwrap()));
        }
        match Table::new(alloc, &words, slots, &about) {
            Ok((board, seat)) => {
                let pass = Pass {
                    seat,
                    number: FIRST,
                    spare: u64::MAX - FIRST,
                    stopped: false,
                };
                Ok((Turnstile { board }, pass))
            }
            Err(Refused { mut slots }) => {
                let value = slots.pop().unwrap().unwrap();
                slots.destroy_empty();
                Err((NoMemory, value))
            }
        }
    }

    /// Splits off a pass with the next number, which has seen and heard as much.
    pub fn split(&self, pass: &mut Pass<G>) -> Pass<G>
        requires turn { pass.old.table ≡ self.now }
        requires spare { 0 < pass.old.known.spare }
        ensures kept { pass.new ≡ informed pass.old (parted_known pass.old.known) }
        ensures made { result ≡ new_pass self.now (part_known pass.old.known) }
    {
        let number = u64::MAX - (pass.spare - 1);
        let seat = self.board.shared.split_seat::<Parts>(&mut pass.seat);
        pass.spare -= 1;
        Pass {
            seat,
            number,
            spare: 0,
            stopped: false,
        }
    }

    /// Joins a pass that was split off this one. The two have no entry in common.
    pub fn join(&self, pass: &mut Pass<G>, other: Pass<G>)
        requires pass { IsFreeOf self.now pass.old }
        requires other { IsFreeOf self.now other }
        requires out { IsAmong other.known.number pass.old.known.out }
        ensures joined { pass.new ≡ informed pass.old (joined_known pass.old.known other.known) }
        ensures apart { AreDisjoint pass.old.known.mine other.known.mine }
    {
        let Pass {
            seat,
            number: _,
            spare: _,
            stopped: _,
        } = other;
        self.board.shared.join_seat::<Parts>(&mut pass.seat, seat);
        self.board.shared.load::<Looks>(&mut pass.seat, HOLDER);
    }

    /// Takes the turn if no pass has it.
    pub fn try_take(&self, pass: &mut Pass<G>) -> Turn<G>
        requires { IsFreeOf self.now pass.old }
        ensures { Tries G.setup G.history pass.old result pass.new }
    {
        let found = self
            .board
            .shared
            .compare_exchange::<Takes>(&mut pass.seat, HOLDER, NOBODY, pass.number);
        if found != NOBODY {
            return Turn::Busy { holder: found };
        }
        let value = self
            .board
            .shared
            .exchange(&mut pass.seat, VALUE, None)
            .unwrap();
        Turn::Taken(value)
    }

    /// Waits for the turn, and takes it.
    pub fn take<R: Wait>(&self, rt: &R, pass: &mut Pass<G>) -> G
        requires { IsFreeOf self.now pass.old }
        ensures { HasTaken G.setup G.history pass.old result pass.new }
    {
        let backoff = Backoff::new();
        for _ in rt.forever() {
            match self.try_take(pass) {
                Turn::Taken(value) => return value,
                Turn::Busy { holder: _ } => backoff.snooze(),
            }
        }
        unreachable!()
    }

    /// Gives the value back, whose history may have grown, and with it the turn.
    pub fn give(&self, pass: &mut Pass<G>, value: G)
        requires turn { HasTurnOf self.now pass.old }
        requires setup { G.setup value ≡ pass.old.known.setup }
        requires grown { IsPrefix pass.old.known.seen (G.history value) }
        ensures { pass.new ≡ given G.setup G.history pass.old value (G.halted value) }
    {
        let length = value.length();
        let stopped = value.stopped();
        let gone = self
            .board
            .shared
            .exchange(&mut pass.seat, VALUE, Some(value));
        let None = gone else { unreachable!() };
        self.board
            .shared
            .store::<Tells>(&mut pass.seat, LENGTH, length);
        self.board
            .shared
            .store::<Frees>(&mut pass.seat, HOLDER, NOBODY);
        pass.stopped = stopped;
    }

    /// The length of the value that was last given back, or is being given.
    pub fn published(&self, pass: &mut Pass<G>) -> u64
        requires { pass.old.table ≡ self.now }
        ensures seen { length pass.old.known.seen ≤ result }
        ensures heard { pass.old.known.heard ≤ result }
        ensures pass { pass.new ≡ informed pass.old (heard_known pass.old.known result) }
    {
        self.board.shared.load::<Hears>(&mut pass.seat, LENGTH)
    }

    /// The value, where the first pass comes back and all others were joined to it.
    pub fn close(self, pass: Pass<G>) -> G
        requires first { IsFreeOf self pass × (pass.known.number ≡ 1) }
        requires joined { pass.known.out ≡ [] }
        ensures { Continues G.setup G.history pass.known result }
    {
        let Turnstile { board } = self;
        let Pass {
            seat,
            number: _,
            spare: _,
            stopped: _,
        } = pass;
        let mut closed = board.close_with(seat);
        let value = closed.take(VALUE);
        closed.free();
        value.unwrap()
    }
}
