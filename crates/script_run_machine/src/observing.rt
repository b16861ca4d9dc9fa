//! Asking for the state by keys.
ghost use Rattle.std.specs.Prelude.{◌≡◌, ◌≤◌, ◌||◌, map, option_map, IfSome, Some};
ghost use Rattle.std.specs.List.{list_any};
ghost use Rattle.std.specs.Option.{option_copied};
ghost use Rattle.script_meaning.specs.Seeing.{same_key};
ghost use Rattle.script_meaning.specs.Running.{look, Gave};
ghost use Rattle.script_run_machine.specs.Agreeing.{AgreesAs};
ghost use Rattle.script_run_machine.specs.Asking.{key_asked, AreNumberedBy, IsNumberedAsked, IsNumberedNew, Wants, Peeks, new_key, noted};
ghost use Rattle.script_run_machine.specs.Lending.{standing};
ghost use Rattle.script_run_machine.specs.Machines.{state_of};
ghost use Rattle.script_run_machine.specs.Numbering.{key_number};
ghost use Rattle.script_run_machine.specs.Settings.{setting_of};

use crate::keys::{Kept, NumberedKeys, has_key, is_counted_at, kept_answer};
use crate::{Asked, Machine, Scene, Stop, Wanted};
use script_meaning::{FailKind, Key, Seen};
use slee_value::NoMemory;
use std::alloc::Global;

/// How many keys a transaction may read.
pub const KEY_LIMIT: usize = 64;

/// How many keys most runs read at most. For so many, memory is taken once.
const FEW_KEYS: usize = 8;

/// A key that isn't counted yet, with the number of its name.
#[derive(Debug, Drop)]
pub struct NewKey {
    pub key: Key,
    pub number: Option<usize>,
}

/// What was found under a key with the numbers of the names in it, and the key itself where it is new and not counted yet.
#[derive(Debug, Drop)]
pub struct Looked<'a> {
    pub seen: Option<&'a Seen>,
    pub numbers: &'a [Option<usize>],
    pub key: Option<NewKey>,
}

/// Nothing is known of this key.
fn need(alloc: Global, asked: &Asked) -> Stop
    ensures { Wants (key_asked asked.now) result }
{
    let Ok(key) = asked.to_key(alloc) else {
        return Stop::NoMemory;
    };
    match Box::new(alloc, key) {
        Ok(key) => Stop::Need(key),
        Err(_) => Stop::NoMemory,
    }
}

/// The keys of the transaction before the run.
#[inline(always)]
fn keys_before<'a>(scene: &Scene<'a>) -> NumberedKeys<'a>
    ensures keys { result.keys.now ≡ scene.now.keys.now }
    ensures numbers { result.numbers.now ≡ map (key_number scene.now.names.now) scene.now.keys.now }
{
    NumberedKeys {
        keys: scene.keys,
        numbers: scene.key_numbers,
    }
}

/// Whether the key was counted before the run.
#[inline(never)]
fn is_counted_before<W: Wanted>(scene: &Scene, wanted: &W) -> bool
    requires { W.is_numbered scene.now.names.now wanted.now }
    ensures { result ≡ list_any (same_key (W.key_of wanted.now)) scene.now.keys.now }
{
    has_key(scene.names, keys_before(scene), wanted)
}

impl Machine<'_> {
    /// The keys of the run so far.
    #[inline(always)]
    fn own_keys(&self) -> NumberedKeys
        ensures keys { result.keys.now ≡ self.now.keys }
        ensures numbers { result.numbers.now ≡ map (key_number self.now.names) self.now.keys }
    {
        NumberedKeys {
            keys: &self.keys,
            numbers: &self.key_numbers,
        }
    }

    /// Whether the key is counted, by this run or before it. It may well be the one in this place.
    #[inline(always)]
    #[tactic(auto, using(crate::proofs::KeyLemmas::either_turned))]
    fn is_counted<W: Wanted>(&self, scene: &Scene, place: usize, wanted: &W) -> bool
        requires names { self.now.names ≡ scene.now.names.now }
        requires wanted { W.is_numbered scene.now.names.now wanted.now }
        ensures { result ≡ (list_any (same_key (W.key_of wanted.now)) scene.now.keys.now || list_any (same_key (W.key_of wanted.now)) self.now.keys) }
    {
        is_counted_at(
            scene.names,
            keys_before(scene),
            self.own_keys(),
            place,
            wanted,
        ) || has_key(scene.names, self.own_keys(), wanted)
            || is_counted_before(scene, wanted)
    }

    /// What is known of a key, which isn't counted yet. What is new has no key, and nothing is asked for.
    #[tactic(auto, unfolding(script_meaning::specs::Running::observe))]
    pub fn peek<'s>(&self, scene: &Scene<'s>, asked: Option<Asked>) -> Result<Looked<'s>, Stop>
        requires names { self.now.names ≡ scene.now.names.now }
        requires asked { AreNumberedBy IsNumberedAsked scene.now.names.now asked }
        ensures { Peeks scene.now.names.now (look (setting_of scene.now) (option_map key_asked asked.entry) (state_of self.now)) self.now result }
    {
        let Some(asked) = asked else {
            return Ok(Looked {
                seen: None,
                numbers: &[],
                key: None,
            });
        };
        let Kept {
            seen,
            numbers,
            place,
        } = kept_answer(scene, &asked);
        // Keys mostly stand in the order in which their answers were asked for.
        if self.is_counted(scene, place, &asked) {
            return match seen {
                None => Err(need(scene.alloc, &asked)),
                Some(_) => Ok(Looked {
                    seen,
                    numbers,
                    key: None,
                }),
            };
        }
        if scene.keys.len() + self.keys.len() >= KEY_LIMIT {
            return Err(Stop::Broken(FailKind::Observed));
        }
        if seen.is_none() {
            return Err(need(scene.alloc, &asked));
        }
        let key = NewKey {
            key: asked.to_key(scene.alloc)?,
            number: asked.number(),
        };
        Ok(Looked {
            seen,
            numbers,
            key: Some(key),
        })
    }

    /// Takes memory for so many keys as most runs read, before the first of them.
    fn reserve_keys(&mut self) -> Result<(), NoMemory>
        ensures { self.new ≡ self.old }
    {
        if self.keys.is_empty() {
            self.keys.reserve(FEW_KEYS)?;
            self.key_numbers.reserve(FEW_KEYS)?;
        }
        Ok(())
    }

    /// Counts the key under which something was found.
    #[tactic(auto, unfolding(crate::specs::Lending::standing))]
    pub fn note<'s>(&mut self, looked: Looked<'s>) -> Result<Option<&'s Seen>, Stop>
        requires { IsNumberedNew self.old.names looked.key }
        ensures agrees { AgreesAs option_copied (noted (new_key looked.entry.key) (option_copied looked.entry.seen)) self.old self.new result }
        ensures spent { self.new.left ≤ self.old.left }
        ensures names { self.new.names ≡ self.old.names }
        ensures kept { standing self.new ≡ standing self.old }
        ensures effects { self.new.effects ≡ self.old.effects }
    {
        let Looked { seen, key, .. } = looked;
        match key {
            None => Ok(seen),
            Some(NewKey { key, number }) => {
                self.reserve_keys()?;
                self.key_numbers.reserve(1)?;
                self.keys.push(key)?;
                match self.key_numbers.push(number) {
                    Ok(()) => {}
                    Err(_) => unreachable!(),
                }
                Ok(seen)
            }
        }
    }

    /// What is known of a key that is counted already. Nothing where it isn't, or where that takes longer to tell.
    #[inline(always)]
    #[tactic(auto, using(crate::proofs::KeyLemmas::either_turned), unfolding(script_meaning::specs::Running::observe))]
    pub fn seen_again<'s, W: Wanted>(
        &self,
        scene: &Scene<'s>,
        wanted: Option<W>,
    ) -> Option<&'s Seen>
        requires names { self.now.names ≡ scene.now.names.now }
        requires wanted { AreNumberedBy W.is_numbered scene.now.names.now wanted }
        ensures { IfSome result (λ seen. look (setting_of scene.now) (option_map W.key_of wanted) (state_of self.now) ≡ Gave (Some seen.now) (state_of self.now)) }
    {
        let wanted = wanted?;
        let Kept { seen, place, .. } = kept_answer(scene, &wanted);
        let before = keys_before(scene);
        // Keys mostly stand in the order in which their answers were asked for.
        if is_counted_at(scene.names, before, self.own_keys(), place, &wanted)
            || has_key(scene.names, self.own_keys(), &wanted)
        {
            return seen;
        }
        None
    }

    /// What is known of a key, which is counted where it is new. What is new has no key, and nothing is asked for.
    #[inline(never)]
    pub fn look_first<'s, W: Wanted>(
        &mut self,
        scene: &Scene<'s>,
        wanted: Option<W>,
    ) -> Result<Option<&'s Seen>, Stop>
        requires names { self.old.names ≡ scene.now.names.now }
        requires wanted { AreNumberedBy W.is_numbered scene.now.names.now wanted }
        ensures agrees { AgreesAs option_copied (look (setting_of scene.now) (option_map W.key_of wanted)) self.old self.new result }
        ensures spent { self.new.left ≤ self.old.left }
        ensures names { self.new.names ≡ self.old.names }
        ensures kept { standing self.new ≡ standing self.old }
    {
        let Some(wanted) = wanted else {
            return Ok(None);
        };
        let looked = self.peek(scene, Some(wanted.asked()))?;
        self.note(looked)
    }

    /// What is known of a key, which is counted. What is new has no key, and nothing is asked for.
    #[inline(always)]
    pub fn look<'s, W: Wanted>(
        &mut self,
        scene: &Scene<'s>,
        wanted: Option<W>,
    ) -> Result<Option<&'s Seen>, Stop>
        requires names { self.old.names ≡ scene.now.names.now }
        requires wanted { AreNumberedBy W.is_numbered scene.now.names.now wanted }
        ensures agrees { AgreesAs option_copied (look (setting_of scene.now) (option_map W.key_of wanted)) self.old self.new result }
        ensures spent { self.new.left ≤ self.old.left }
        ensures names { self.new.names ≡ self.old.names }
        ensures kept { standing self.new ≡ standing self.old }
    {
        match self.seen_again(scene, wanted) {
            Some(seen) => Ok(Some(seen)),
            None => self.look_first(scene, wanted),
        }
    }
}
