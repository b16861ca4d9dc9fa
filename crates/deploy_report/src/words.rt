//! The words for what may be wrong with a deployment.
ghost use Rattle.std.specs.Prelude.{◌≡◌};
ghost use Rattle.deploy_report.specs.Words.{check_word, shape_word, syntax_word};

use deploy_model::DeployBad;
use script_tree::SyntaxBad;
use script_types::CheckBad;

/// The word for a fault of the shape.
pub(crate) fn shape_word(kind: DeployBad) -> &'static str
    ensures { result.now ≡ shape_word kind }
{
    match kind {
        DeployBad::WrongType => "type",
        DeployBad::Missing => "missing",
        DeployBad::UnknownMember => "unknown-member",
        DeployBad::BadName => "bad-name",
        DeployBad::Repeated => "repeated",
        DeployBad::UnknownName => "unknown-name",
        DeployBad::Range => "range",
        DeployBad::Alias => "alias",
    }
}

/// The word for a fault of a script's text.
pub(crate) fn syntax_word(kind: SyntaxBad) -> &'static str
    ensures { result.now ≡ syntax_word kind }
{
    match kind {
        SyntaxBad::Token => "token",
        SyntaxBad::Expected => "expected",
        SyntaxBad::Deep => "deep",
        SyntaxBad::End => "end",
    }
}

/// The word for a fault of a script that can be read.
pub(crate) fn check_word(kind: CheckBad) -> &'static str
    ensures { result.now ≡ check_word kind }
{
    match kind {
        CheckBad::Name => "name",
        CheckBad::Mismatch => "mismatch",
        CheckBad::Count => "count",
        CheckBad::Place => "place",
    }
}
