//! The options that words give.

ghost use Rattle.std.specs.Prelude.{◌≡◌, ◌≤◌, [], true, IfOk, IfErr, option_map};
ghost use Rattle.clap.specs.Words.{Text, first_of, first_value, found_of};
ghost use Rattle.wi_options.specs.Stated.{most_kept, number_or, stated, stated_keep, stated_load, usual_kept};
ghost use Rattle.wi_options.specs.Refused.{AreRefusedFor, found_amiss, is_taken};
ghost use Rattle.wi_options.specs.Inner.Reads.{ReadsKeep};

use crate::command::{command, kept};
use crate::fault::OptionsFault;
use crate::settings::Options;
use clap::ArgMatches;
use std::alloc::Global;

/// What `clap` reads in the words.
fn parsed<'a>(alloc: Global, words: &'a [String]) -> Result<ArgMatches<'a>, OptionsFault>
    ensures stated { IfOk result
        (λ m. (id : Text) → first_value (found_of m) id ≡ first_of id (stated words.now)) }
    ensures keep { IfOk result ReadsKeep }
    ensures whole { IfOk result (λ _. found_amiss words.now ≡ []) }
    ensures taken { IfErr result
        (λ fault. is_taken words.now ≡ true → fault ≡ OptionsFault.Memory) }
    ensures amiss { IfErr result (AreRefusedFor words.now) }
{
    Ok(command(alloc)?.try_get_matches_from(words)?)
}

/// The options that the words give, of which the first is the program's name, as `std::env::args` gives them.
pub fn options<'a>(alloc: Global, words: &'a [String]) -> Result<Options<'a>, OptionsFault>
    // What clap states for the words, and 65,536 where it states no number.
    ensures load { IfOk result (λ o. option_map (λ s. s.now) o.load ≡ stated_load words.now) }
    ensures keep { IfOk result (λ o. o.keep ≡ number_or usual_kept (stated_keep words.now)) }
    ensures range { IfOk result (λ o. (1 ≤ o.keep) × (o.keep ≤ most_kept)) }
    // Words in which clap finds anything amiss are refused, a call for help too. Words that clap takes are refused only
    // where memory runs out, others also for what is amiss.
    ensures whole { IfOk result (λ _. found_amiss words.now ≡ []) }
    ensures taken { IfErr result
        (λ fault. is_taken words.now ≡ true → fault ≡ OptionsFault.Memory) }
    ensures amiss { IfErr result (AreRefusedFor words.now) }
{
    let matches = parsed(alloc, words)?;
    Ok(Options {
        load: matches.get_str("load"),
        keep: kept(&matches),
    })
}
