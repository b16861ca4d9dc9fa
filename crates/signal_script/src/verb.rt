//! The first words of the nine forms.
ghost use Rattle.std.specs.Prelude.{◌≡◌};
ghost use Rattle.signal_script.specs.Signals.{verb_word, verb_of};

/// What a line does.
#[derive(Clone, Copy, Debug, PartialEq, Eq)]
pub(crate) enum Verb {
    Start,
    End,
    Fire,
    Clock,
    Activate,
    Deactivate,
    ProfileAdd,
    ProfileUpdate,
    ProfileRemove,
}

impl Verb {
    /// The verb that this word is.
    pub(crate) fn of(word: &str) -> Option<Verb>
        ensures { result ≡ verb_of word.now }
    {
        if word == "start" {
            Some(Verb::Start)
        } else if word == "end" {
            Some(Verb::End)
        } else if word == "fire" {
            Some(Verb::Fire)
        } else if word == "clock" {
            Some(Verb::Clock)
        } else if word == "activate" {
            Some(Verb::Activate)
        } else if word == "deactivate" {
            Some(Verb::Deactivate)
        } else if word == "profile-add" {
            Some(Verb::ProfileAdd)
        } else if word == "profile-update" {
            Some(Verb::ProfileUpdate)
        } else if word == "profile-remove" {
            Some(Verb::ProfileRemove)
        } else {
            None
        }
    }

    /// Its word.
    pub(crate) fn word(self) -> &'static str
        ensures { result.now ≡ verb_word self }
    {
        match self {
            Verb::Start => "start",
            Verb::End => "end",
            Verb::Fire => "fire",
            Verb::Clock => "clock",
            Verb::Activate => "activate",
            Verb::Deactivate => "deactivate",
            Verb::ProfileAdd => "profile-add",
            Verb::ProfileUpdate => "profile-update",
            Verb::ProfileRemove => "profile-remove",
        }
    }
}
