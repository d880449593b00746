ghost use Rattle.std.specs.Prelude.{◌≡◌, MatchResult, option_map};
ghost use Rattle.std.specs.Char.{is_ascii_digit};
ghost use Rattle.std.specs.List.{list_all};
ghost use Rattle.deny_cli.specs.private.Commands.{command_view, form_view, partial_view};
ghost use Rattle.deny_cli.specs.Registries.{registries_in, registry_of};
ghost use Rattle.deny_cli.specs.Arguments.{count_of, is_plain, leads_with_zero, home_added, names_file};
ghost use Rattle.deny_cli.specs.Arguments.{texts, Asks, IsUsageAt, command_of, option_added, path_added, step};
ghost use Rattle.deny_cli.specs.Arguments.{today_added};

use crate::home::home_of;
use crate::registries::registry_of;
use crate::today::today_of;
use deny_cfg::Day;
use std::alloc::Global;

/// The arguments of a check: the paths of its policy and metadata, that of a table of replacements, if one
/// is named; the home and the day, if they are named; and all arguments, since options among them name
/// registries.
#[derive(Clone, Copy)]
pub struct CheckArguments<'a> {
    pub policy: &'a str,
    pub metadata: &'a str,
    pub replacements: Option<&'a str>,
    pub home: Option<&'a str>,
    pub today: Option<Day>,
    pub arguments: &'a [String],
}

/// The most crates that can be asked for.
const MOST_CRATES: u32 = 20000;

/// The command that accepted arguments ask for.
#[derive(Clone, Copy)]
pub enum Command<'a> {
    Check(CheckArguments<'a>),
    /// Generates so many crates, at most 20000, and checks them.
    Generate(u32),
}

/// The arguments of a check as far as they were read.
#[derive(Clone, Copy)]
struct PartialArguments<'a> {
    policy: Option<&'a str>,
    metadata: Option<&'a str>,
    replacements: Option<&'a str>,
    home: Option<&'a str>,
    today: Option<Day>,
}

/// A command that is filled argument by argument.
#[derive(Clone, Copy)]
enum Form<'a> {
    Nothing,
    Checking(PartialArguments<'a>),
    /// How many crates are to be generated, where an argument says it.
    Generating(Option<u32>),
}

/// Whether an argument can name a file: it is not empty, and does not begin with a dash.
#[tactic(auto, unfolding(crate::specs::Arguments::names_file))]
fn names_file(argument: &str) -> bool
    ensures { result ≡ names_file argument.now }
{
    match argument.as_bytes() {
        [first, ..] => *first != b'-',
        [] => false,
    }
}

/// Whether a zero stands before other bytes.
#[tactic(auto, unfolding(crate::specs::Arguments::leads_with_zero))]
fn leads_with_zero(argument: &[u8]) -> bool
    ensures { result ≡ leads_with_zero argument.now }
{
    match argument {
        [first, _, ..] => *first == b'0',
        [_] | [] => false,
    }
}

fn are_digits(argument: &[u8]) -> bool
    ensures { result ≡ list_all is_ascii_digit argument.now }
{
    argument.iter().all(|byte| byte.is_ascii_digit())
}

/// Whether an argument is a number in digits alone, without a leading zero before others.
#[tactic(auto, unfolding(crate::specs::Arguments::is_plain))]
fn is_plain(argument: &[u8]) -> bool
    ensures { result ≡ is_plain argument.now }
{
    !argument.is_empty() && are_digits(argument) && !leads_with_zero(argument)
}

/// The number of crates that an argument asks for: digits, without a leading zero before others, and not
/// too many.
#[tactic(auto, unfolding(crate::specs::Arguments::count_of))]
fn count_of(argument: &str) -> Option<u32>
    ensures { result ≡ count_of argument.now }
{
    if !is_plain(argument.as_bytes()) {
        return None;
    }
    match argument.parse::<u32>() {
        Ok(crates) => {
            if crates <= MOST_CRATES {
                Some(crates)
            } else {
                None
            }
        }
        Err(_) => None,
    }
}

/// A check with one more path; none where each input has its path.
fn with_path<'a>(asked: PartialArguments<'a>, path: &'a str) -> Option<PartialArguments<'a>>
    ensures { option_map partial_view result ≡ path_added (partial_view asked.entry) path.now }
{
    let path = Some(path);
    if asked.policy.is_none() {
        Some(PartialArguments {
            policy: path,
            ..asked
        })
    } else if asked.metadata.is_none() {
        Some(PartialArguments {
            metadata: path,
            ..asked
        })
    } else if asked.replacements.is_none() {
        Some(PartialArguments {
            replacements: path,
            ..asked
        })
    } else {
        None
    }
}

/// A check with the home that an argument names; none where it has one, or the argument names none.
fn with_home<'a>(asked: PartialArguments<'a>, argument: &'a str) -> Option<PartialArguments<'a>>
    ensures { option_map partial_view result ≡ home_added (partial_view asked.entry) argument.now }
{
    if asked.home.is_some() {
        return None;
    }
    let home = home_of(argument)?;
    Some(PartialArguments {
        home: Some(home),
        ..asked
    })
}

/// A check with the day that an argument names; none where it has one, or the argument names none.
fn with_today<'a>(
    alloc: Global,
    asked: PartialArguments<'a>,
    argument: &str,
) -> Option<PartialArguments<'a>>
    ensures { option_map partial_view result ≡ today_added (partial_view asked.entry) argument.now }
{
    if asked.today.is_some() {
        return None;
    }
    let today = today_of(alloc, argument)?;
    Some(PartialArguments {
        today: Some(today),
        ..asked
    })
}

/// A check with what an option names; none where no option may stand, or the argument is none.
fn with_option<'a>(
    alloc: Global,
    asked: PartialArguments<'a>,
    argument: &'a str,
) -> Option<PartialArguments<'a>>
    ensures { option_map partial_view result ≡ option_added (partial_view asked.entry) argument.now }
{
    if asked.policy.is_some() {
        None
    } else if registry_of(argument).is_some() {
        Some(asked)
    } else if home_of(argument).is_some() {
        with_home(asked, argument)
    } else {
        with_today(alloc, asked, argument)
    }
}

/// A form with one more argument; none where the argument may not stand there.
#[tactic(auto, unfolding(crate::specs::Arguments::step))]
fn step<'a>(alloc: Global, form: Form<'a>, argument: &'a str) -> Option<Form<'a>>
    ensures { option_map form_view result ≡ step (form_view form.entry) argument.now }
{
    match form {
        Form::Nothing if argument == "check" => Some(Form::Checking(PartialArguments {
            policy: None,
            metadata: None,
            replacements: None,
            home: None,
            today: None,
        })),
        Form::Nothing if argument == "generate" => Some(Form::Generating(None)),
        Form::Checking(asked) if names_file(argument) => {
            Some(Form::Checking(with_path(asked, argument)?))
        }
        Form::Checking(asked) => Some(Form::Checking(with_option(alloc, asked, argument)?)),
        Form::Generating(None) => Some(Form::Generating(Some(count_of(argument)?))),
        Form::Nothing | Form::Generating(Some(_)) => None,
    }
}

/// The command of a form that these arguments fill; none where something is missing.
fn command_of<'a>(form: Form<'a>, arguments: &'a [String]) -> Option<Command<'a>>
    ensures { option_map command_view result
        ≡ command_of (registries_in (texts arguments.now)) (form_view form.entry) }
{
    match form {
        Form::Nothing => None,
        Form::Checking(asked) => Some(Command::Check(CheckArguments {
            policy: asked.policy?,
            metadata: asked.metadata?,
            replacements: asked.replacements,
            home: asked.home,
            today: asked.today,
            arguments,
        })),
        Form::Generating(crates) => Some(Command::Generate(crates?)),
    }
}

/// The command that arguments ask for. No memory is taken.
///
/// # Errors
///
/// The index of the first argument at which no accepted list goes on, or how many arguments there are where
/// they end too early.
pub fn read_arguments(alloc: Global, arguments: &[String]) -> Result<Command<'_>, usize>
    ensures { MatchResult result
        (λ command. Asks (texts arguments.now) (command_view command))
        (λ at. IsUsageAt (texts arguments.now) at) }
{
    let mut form = Form::Nothing;
    for (at, argument) in arguments.iter().enumerate() {
        match step(alloc, form, argument.as_str()) {
            Some(next) => form = next,
            None => return Err(at),
        }
    }
    match command_of(form, arguments) {
        Some(command) => Ok(command),
        None => Err(arguments.len()),
    }
}
