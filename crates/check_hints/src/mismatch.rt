//! The types that are found and wanted at a place of a script.
ghost use Rattle.std.specs.Prelude.{◌≡◌, IfOk, drop, filter, option_map, take};
ghost use Rattle.slee_value.specs.declared.kind.Kind.TheVariants as kinds;
ghost use Rattle.script_types.specs.Scopes.{parameters_in_scope};
ghost use Rattle.script_check_terms.specs.SettingOf.{setting_of};
ghost use Rattle.check_hints.specs.Mismatches.{accepts, found, is_found, is_wanted, mismatch, piece_of, sample, tried, types_at, types_of, wanted, with_end};
ghost use Rattle.check_hints.specs.Probes.{fits_at};

use crate::checking::{Finding, fits_at, probe, stands_outside};
use crate::samples::{KINDS, sample, sample_tokens};
use crate::splice::{front_of, rest_of, spliced, wrapped};
use script_check_terms::{Setting, behind};
use script_tree::{Token, lex};
use script_types::FieldCode;
use slee_value::{Kind, NoMemory};

/// The most tokens of an expression whose types are told.
const PIECE_LIMIT: usize = 64;

/// A piece of a script: it stands between two places of the text, and so many tokens stand before it.
#[derive(Clone, Copy)]
struct Site<'a> {
    setting: &'a Setting<'a>,
    parameters: &'a [FieldCode],
    text: &'a [u8],
    at: usize,
    start: usize,
    stop: usize,
}

/// The types that an expression has, and those that may stand there.
#[derive(Drop)]
pub struct MismatchHint {
    pub found: Vec<Kind>,
    pub wanted: Vec<Kind>,
}

/// What the check finds, where that piece stands in place of the one in question.
#[tactic(auto, unfolding(crate::specs::Mismatches::tried))]
fn tried(site: &Site, piece: &[u8]) -> Result<Finding, NoMemory>
    ensures { IfOk result (λ p. p ≡ tried (piece_of site.now) piece.now) }
{
    let text = spliced(site.setting.alloc, site.text, site.start, site.stop, piece)?;
    probe(site.setting, site.parameters, &text)
}

/// Whether an expression of that type may stand there.
#[tactic(auto, unfolding(crate::specs::Mismatches::accepts))]
fn accepts(site: &Site, kind: Kind) -> Result<bool, NoMemory>
    ensures { IfOk result (λ fits. fits ≡ accepts (piece_of site.now) kind) }
{
    let found = tried(site, sample(kind).as_bytes())?;
    let end = behind(site.at, sample_tokens(kind))?;
    Ok(stands_outside(found, site.at, end))
}

/// Whether an activity is wanted there, where `none` may stand there.
fn is_activity_wanted(site: &Site) -> Result<bool, NoMemory>
    ensures { IfOk result (λ fits. fits ≡ fits_at (tried (piece_of site.now) (sample kinds.Activity)) site.now.at) }
{
    let found = tried(site, sample(Kind::Activity).as_bytes())?;
    Ok(fits_at(found, site.at))
}

/// Whether that type is wanted there.
#[tactic(auto, unfolding(crate::specs::Mismatches::is_wanted))]
fn is_wanted(site: &Site, kind: Kind) -> Result<bool, NoMemory>
    ensures { IfOk result (λ fits. fits ≡ is_wanted (piece_of site.now) kind) }
{
    match kind {
        Kind::Int => accepts(site, Kind::Int),
        Kind::Text => accepts(site, Kind::Text),
        Kind::Bool => accepts(site, Kind::Bool),
        Kind::Activity => {
            if !accepts(site, Kind::Timer)? {
                return Ok(false);
            }
            is_activity_wanted(site)
        }
        Kind::Timer => {
            if !accepts(site, Kind::Timer)? {
                return Ok(false);
            }
            Ok(!accepts(site, Kind::Activity)?)
        }
    }
}

/// Whether the piece is of that type.
#[tactic(auto, unfolding(crate::specs::Mismatches::is_found))]
fn is_found(site: &Site, kind: Kind) -> Result<bool, NoMemory>
    ensures { IfOk result (λ fits. fits ≡ is_found (piece_of site.now) kind) }
{
    let piece = rest_of(front_of(site.text, site.stop), site.start);
    let found = tried(site, &wrapped(site.setting.alloc, kind, piece)?)?;
    let from = behind(site.at, 2)?;
    let to = behind(site.at, 4)?;
    Ok(stands_outside(found, from, to))
}

/// Those of these types that are wanted there.
fn wanted_among(site: &Site, kinds: &[Kind]) -> Result<Vec<Kind>, NoMemory>
    ensures { IfOk result (λ list. list.items ≡ filter (is_wanted (piece_of site.now)) kinds.now) }
{
    let mut list = Vec::new(site.setting.alloc);
    for kind in kinds {
        if is_wanted(site, *kind)? {
            list.push(*kind)?;
        }
    }
    Ok(list)
}

#[tactic(auto, unfolding(crate::specs::Mismatches::wanted))]
fn wanted(site: &Site) -> Result<Vec<Kind>, NoMemory>
    ensures { IfOk result (λ list. list.items ≡ wanted (piece_of site.now)) }
{
    wanted_among(site, &KINDS)
}

/// Those of these types that the piece has.
fn found_among(site: &Site, kinds: &[Kind]) -> Result<Vec<Kind>, NoMemory>
    ensures { IfOk result (λ list. list.items ≡ filter (is_found (piece_of site.now)) kinds.now) }
{
    let mut list = Vec::new(site.setting.alloc);
    for kind in kinds {
        if is_found(site, *kind)? {
            list.push(*kind)?;
        }
    }
    Ok(list)
}

#[tactic(auto, unfolding(crate::specs::Mismatches::found))]
fn found(site: &Site) -> Result<Vec<Kind>, NoMemory>
    ensures { IfOk result (λ list. list.items ≡ found (piece_of site.now)) }
{
    found_among(site, &KINDS)
}

/// The piece of the same start that ends at another place.
fn with_end<'a>(site: &Site<'a>, stop: usize) -> Site<'a>
    ensures { piece_of result ≡ with_end (piece_of site.now) stop }
{
    Site {
        setting: site.setting,
        parameters: site.parameters,
        text: site.text,
        at: site.at,
        start: site.start,
        stop,
    }
}

/// The types of the shortest piece that ends with one of these tokens and in whose place something may stand.
#[tactic(auto, unfolding(crate::specs::Mismatches::types_at))]
fn types_at(site: &Site, ends: &[Token]) -> Result<Option<MismatchHint>, NoMemory>
    ensures { IfOk result (λ hint. option_map types_of hint ≡ types_at (piece_of site.now) ends.now) }
{
    for token in ends {
        let longer = with_end(site, token.end);
        let wanted = wanted(&longer)?;
        if !wanted.is_empty() {
            let found = found(&longer)?;
            return Ok(Some(MismatchHint { found, wanted }));
        }
    }
    Ok(None)
}

/// The first so many tokens.
fn first_of(tokens: &[Token], limit: usize) -> &[Token]
    ensures { result.now ≡ take limit tokens.now }
{
    if tokens.len() < limit {
        tokens
    } else {
        &tokens[..limit]
    }
}

/// The tokens from a place on.
fn tokens_from(tokens: &[Token], at: usize) -> &[Token]
    ensures { result.now ≡ drop at tokens.now }
{
    if tokens.len() < at {
        &[]
    } else {
        &tokens[at..]
    }
}

/// The types that are found and wanted where a text's first misuse is that of an expression that begins behind so many tokens.
#[tactic(auto, unfolding(crate::specs::Mismatches::mismatch))]
pub fn mismatch_hint(
    setting: &Setting,
    parameters: &[FieldCode],
    text: &str,
    at: usize,
) -> Result<Option<MismatchHint>, NoMemory>
    ensures { IfOk result (λ hint. option_map types_of hint ≡ mismatch (setting_of setting.now) (parameters_in_scope parameters.now) text.now at) }
{
    let lexed = lex(setting.alloc, text)?;
    let ends = first_of(tokens_from(&lexed.tokens, at), PIECE_LIMIT);
    let [first, ..] = ends else {
        return Ok(None);
    };
    let site = Site {
        setting,
        parameters,
        text: text.as_bytes(),
        at,
        start: first.start,
        stop: first.start,
    };
    types_at(&site, ends)
}
