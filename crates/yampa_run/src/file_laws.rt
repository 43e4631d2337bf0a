// Laws of the definitions: what the refusal of a file says, that a derived network writes the same,
// what the optimiser's texts are good for, and the whole way of a command.

ghost use Rattle.yampa_run.specs.Loading.{NoNetworkLaw, OneRefusalLaw};
ghost use Rattle.yampa_run.specs.Preparation.{OnlyMemoryLaw};
ghost use Rattle.yampa_run.specs.Headline.{SameOutputLaw, SameFrontLaw, WritesOutputLaw, HeadlineLaw};
ghost use Rattle.yampa_run.specs.AppliedFiles.{AppliedFilesLaw};
ghost use Rattle.yampa_run.specs.OptimisedFiles.{OptimisedFilesLaw};
ghost use Rattle.yampa_run.specs.CompiledFiles.{CompiledFilesLaw};
ghost use Rattle.yampa_run.specs.WholeRun.{WholeRunLaw};
ghost use Rattle.yampa_run.specs.Words.{WordLimitsAre};

use cert_check::{applied_laws, derivation_laws};
use net_opt::optimised_laws;
use net_syntax::typing_laws;
use net_text::printing_laws;
use sample_core::reading_laws;
use stream_text::stream_laws;

/// The bytes of a file are refused with one line, and bytes that have a network with none. So
/// `prepare` refuses what is asked for, but for lack of memory and of C that is too large, only where
/// no job is that: where the bytes of a file have no network or no certificate; where a target isn't
/// derived, a step can't be taken, or the steps are too many; where a position isn't in the network, or
/// a word is no number, name or position. That a table is full is told behind it.
pub fn refusal_laws()
    ensures one_line { OneRefusalLaw }
    ensures no_network { NoNetworkLaw }
    ensures only_memory { OnlyMemoryLaw }
{}

/// How much the words of options may tell, as numbers.
pub fn limit_laws()
    ensures { WordLimitsAre }
{}

/// Where `check` accepts a certificate from a source to a target network, then, whatever bytes come
/// as the timed stream and in whatever pieces, a `run` of either network in which no allocation,
/// read or write is refused writes the same bytes: one line per sample, the values of the source's
/// stream meaning, up to the stream's first faulty line, which it names.
///
/// Accepts: `check` answered `Ok`, whose contract says `Derives`. `lines` is the same in both runs;
/// `most_visits` may differ.
pub fn headline_laws()
    ensures same_output { SameOutputLaw }
    ensures same_front { SameFrontLaw }
    ensures writes_output { WritesOutputLaw }
    ensures headline { HeadlineLaw }
{
    reading_laws();
    derivation_laws();
}

/// Where the words ask for a run of a network file, or of a target whose certificate is to be
/// checked, and the bytes of the files that they name are told: what `run_network` writes of any
/// text is the output of the file's network, or of the source. With status 0, by `run_status`, all
/// of it; with status 1, all of it up to the text's first fault, which the line names; with status
/// 3, a part of it as a prefix, and the line tells what ended it early. There is no other status.
pub fn whole_run_laws()
    ensures whole { WholeRunLaw }
{
    reading_laws();
    stream_laws();
    derivation_laws();
    typing_laws();
}

/// What two runs of `optimise` print of one file, without the flag and with it, put into files,
/// within the limits of files: the steps of the one derive the network of the other from that of the
/// file. So `prepare` refuses `check` and `run-checked` of the three for lack of memory alone.
pub fn optimised_file_laws()
    ensures { OptimisedFilesLaw }
{
    printing_laws();
    optimised_laws();
}

/// What `apply` prints of a source and a certificate, put into a file, within the limits of files:
/// the certificate derives it from the source. So `prepare` refuses `check` and `run-checked` of the
/// three for lack of memory alone.
pub fn applied_file_laws()
    ensures { AppliedFilesLaw }
{
    printing_laws();
    applied_laws();
}

/// What is printed where the words ask for C of a file, or of a target whose certificate is to be
/// checked, and the bytes of the files that they name are told: the text of a file of C. By the rules of
/// C99 its functions have a result, so that nothing undefined happens: from any state on `init`, and then
/// `step` at each call. They output the stream meaning of the file's network, or of the source. An
/// unchecked `step` is given samples that it can take, the other one whatever calls, of which it refuses
/// those that it can't take. All samples of the input type can be given whose lists have at most as many
/// elements as the words tell.
pub fn compiled_file_laws()
    ensures { CompiledFilesLaw }
{
    c_file::file_laws();
    typing_laws();
    derivation_laws();
}
