//! Which arguments a command line has.
ghost use Rattle.std.specs.Prelude.{◌≡◌, false, is_some};
ghost use Rattle.clap.specs.Matches.{first_value, found_of};
ghost use Rattle.cli_arguments.specs.Words.{is_set};

use clap::ArgMatches;

/// Returns whether `words`, after a subcommand, set the flag `name`.
pub fn is_set(words: &ArgMatches<'_>, name: &str) -> bool
    ensures { result ≡ is_set (first_value (found_of words.now) name.now) }
{
    match words.get_str(name) {
        Some(word) => word == "true",
        None => false,
    }
}

/// Returns whether `words` have a word for the option `name`.
pub(crate) fn is_named(words: &ArgMatches<'_>, name: &str) -> bool
    ensures { result ≡ is_some (first_value (found_of words.now) name.now) }
{
    words.get_str(name).is_some()
}
