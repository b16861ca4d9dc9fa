//! Sentences and words for what is told.
ghost use Rattle.std.specs.Prelude.{◌≡◌};
ghost use Rattle.deploy_hints.specs.Texts.{check_sentence, deep_text, group_text, lead, reserved_text, shape_sentence};

use deploy_model::DeployBad;
use script_hints::Group;
use script_tree::SyntaxBad;
use script_types::CheckBad;

/// What a value of the JSON document has to be.
pub(crate) fn shape_sentence(kind: DeployBad) -> &'static [u8]
    ensures { result.now ≡ shape_sentence kind }
{
    match kind {
        DeployBad::WrongType => {
            b"a value of another JSON type has to stand there, or a whole number of at most 64 bits"
        }
        DeployBad::Missing => b"this member has to be there",
        DeployBad::UnknownMember => b"no member of that name belongs there",
        DeployBad::BadName => {
            b"a name is a lower-case letter and at most 63 lower-case letters, digits and underscores"
        }
        DeployBad::Repeated => b"an earlier one has this already",
        DeployBad::UnknownName => b"nothing that may be named there has this name",
        DeployBad::Range => b"this number, length or word isn't allowed there",
        DeployBad::Alias => b"an earlier attribute with this alias has another type",
    }
}

/// What the check of a script wants.
pub(crate) fn check_sentence(kind: CheckBad) -> &'static [u8]
    ensures { result.now ≡ check_sentence kind }
{
    match kind {
        CheckBad::Name => {
            b"nothing that may be named there has this name, or a new variable has the name of one that is visible"
        }
        CheckBad::Mismatch => b"a value of another type has to stand there",
        CheckBad::Count => {
            b"the method has another number of parameters, or the event another number of fields"
        }
        CheckBad::Place => b"this isn't allowed in such a script",
    }
}

pub(crate) fn group_text(group: Group) -> &'static [u8]
    ensures { result.now ≡ group_text group }
{
    match group {
        Group::Statement => b"a statement",
        Group::Expression => b"an expression",
        Group::Operator => b"an operator",
    }
}

/// What stands before an item of a list.
pub(crate) fn lead(is_first: bool) -> &'static [u8]
    ensures { result.now ≡ lead is_first }
{
    if is_first { b": " } else { b", " }
}

/// Why a word of the language is no name.
pub(crate) fn reserved_text(is_reserved: bool) -> &'static [u8]
    ensures { result.now ≡ reserved_text is_reserved }
{
    if is_reserved {
        b", a word of the language and so no name"
    } else {
        b""
    }
}

/// What a bracket that opens level 65 does.
pub(crate) fn deep_text(kind: SyntaxBad) -> &'static [u8]
    ensures { result.now ≡ deep_text kind }
{
    match kind {
        SyntaxBad::Deep => b", and brackets stand at most 64 deep",
        SyntaxBad::Token | SyntaxBad::Expected | SyntaxBad::End => b"",
    }
}
