//! What words ask for.
ghost use Rattle.std.specs.Prelude.{◌≡◌, map};
ghost use Rattle.it_tell.specs.Settings.{alone, is_plain, no_options, settings_of, with_word, with_words};

/// How proofs are written: as equations that are true of every map; or where the question's functions hold, with constraints by
/// the names of their lines, or with the lines' own terms.
#[derive(Clone, Copy, Debug, PartialEq, Eq)]
pub enum Style {
    Plain,
    Named,
    Whole,
}

/// Options of a telling: `steps`, with the steps of proofs; `short`, short proofs are looked for, which may take long; `style`,
/// the style of proofs.
#[derive(Clone, Copy, Debug, PartialEq, Eq)]
pub struct Options {
    pub steps: bool,
    pub short: bool,
    pub style: Style,
}

/// What the words ask for.
#[derive(Clone, Copy, Debug, PartialEq, Eq)]
pub enum Settings {
    Tell(Options),
    Help,
    Version,
}

/// The options if there are no words.
const NO_OPTIONS: Options = Options {
    steps: false,
    short: false,
    style: Style::Plain,
};

/// Whether `style` is the plain one, for which no word asks.
pub fn is_plain(style: Style) -> bool
    ensures { result ≡ is_plain style }
{
    match style {
        Style::Plain => true,
        Style::Named | Style::Whole => false,
    }
}

/// `options` with the one that `word` adds; None if `word` is no option, or is there already, or is a second style.
#[tactic(auto, unfolding(crate::specs::Settings::with_word))]
fn with_word(options: Options, word: &str) -> Option<Options>
    ensures { result ≡ with_word options word.now }
{
    let is_plain = is_plain(options.style);
    if word == "--steps" && !options.steps {
        Some(Options {
            steps: true,
            ..options
        })
    } else if word == "--short" && !options.short {
        Some(Options {
            short: true,
            ..options
        })
    } else if word == "--named" && is_plain {
        Some(Options {
            style: Style::Named,
            ..options
        })
    } else if word == "--whole" && is_plain {
        Some(Options {
            style: Style::Whole,
            ..options
        })
    } else {
        None
    }
}

/// The options that `words` add, one after the other.
fn with_words(words: &[&str]) -> Option<Options>
    ensures { result ≡ with_words no_options (map (λ w. w.now) words.now) }
{
    let mut options = NO_OPTIONS;
    for word in words {
        options = with_word(options, word)?;
    }
    Some(options)
}

/// What `word` asks for where it is the only word.
#[tactic(auto, unfolding(crate::specs::Settings::alone))]
fn alone(word: &str) -> Option<Settings>
    ensures { result ≡ alone word.now }
{
    match word {
        "--help" => Some(Settings::Help),
        "--version" => Some(Settings::Version),
        _ => Some(Settings::Tell(with_word(NO_OPTIONS, word)?)),
    }
}

/// What the words ask for: `--help` and `--version` stand alone, and each option stands at most once. None where a word is no
/// option, or is one too many.
#[tactic(auto, unfolding(crate::specs::Settings::settings_of))]
pub fn settings_of(words: &[&str]) -> Option<Settings>
    ensures { result ≡ settings_of (map (λ w. w.now) words.now) }
{
    match words {
        [word] => alone(word),
        _ => Some(Settings::Tell(with_words(words)?)),
    }
}
