// What the program and each of its commands is called and takes.
use crate::help::{
    ABOUT, AUDIT_ABOUT, AUDIT_HELP, FILE_HELP, JOURNAL_HELP, LASTING_HELP, LINES_HELP, LOAD_ABOUT,
    LOAD_HELP, POPS_HELP, PROGRESS_HELP, PUSHES_HELP, ROUNDS_HELP, SEQ_ABOUT, SEQ_HELP, STORE_HELP,
    TRAIL_HELP, WALK_ABOUT, WALK_HELP, WIDE_HELP, WORKERS_HELP,
};
use crate::plan::{MOST_PUSHES, MOST_ROUNDS, MOST_WORKERS};
use clap::{Arg, ArgAction, Command, value_parser};
use pq_types::MOST_LINES;
use std::alloc::{AllocError, Global};

/// The words of the kinds of store.
static STORES: [&str; 3] = ["leftist", "array", "sorted"];

// An option of a command.
#[derive(Clone, Copy)]
enum Choice {
    // It takes a number from the least to the most, for which help has this word. Where the words give none it is
    // the default; without a default it has to be given.
    Number {
        name: &'static str,
        word: &'static str,
        least: u32,
        most: u32,
        default: Option<&'static str>,
        help: &'static str,
    },
    // It is there or not.
    Flag {
        name: &'static str,
        help: &'static str,
    },
    // It takes the word of a kind of store, the leftist heap's where none is given.
    Store,
    // It takes the file that a journal is written to.
    Journal,
    // It takes the file that a journal is read from, as its only word.
    File,
}

// A command: its name, what help says of it in a line and in whole, and its options.
#[derive(Clone, Copy)]
struct Described {
    name: &'static str,
    about: &'static str,
    help: &'static str,
    choices: &'static [Choice],
}

// It asks for wide items.
const WIDE: Choice = Choice::Flag {
    name: "wide",
    help: WIDE_HELP,
};

static SEQ: [Choice; 5] = [
    Choice::Number {
        name: "lines",
        word: "N",
        least: 1,
        most: MOST_LINES as u32,
        default: Some("1024"),
        help: LINES_HELP,
    },
    Choice::Flag {
        name: "lasting",
        help: LASTING_HELP,
    },
    Choice::Store,
    Choice::Journal,
    WIDE,
];

static AUDIT: [Choice; 2] = [WIDE, Choice::File];

static WALK: [Choice; 1] = [Choice::Flag {
    name: "trail",
    help: TRAIL_HELP,
}];

static LOAD: [Choice; 8] = [
    Choice::Number {
        name: "workers",
        word: "W",
        least: 1,
        most: MOST_WORKERS,
        default: None,
        help: WORKERS_HELP,
    },
    Choice::Number {
        name: "pushes",
        word: "P",
        least: 1,
        most: MOST_PUSHES,
        default: None,
        help: PUSHES_HELP,
    },
    Choice::Number {
        name: "pops",
        word: "Q",
        least: 0,
        most: MOST_PUSHES,
        default: None,
        help: POPS_HELP,
    },
    Choice::Number {
        name: "rounds",
        word: "R",
        least: 1,
        most: MOST_ROUNDS,
        default: Some("1"),
        help: ROUNDS_HELP,
    },
    Choice::Store,
    Choice::Journal,
    Choice::Flag {
        name: "progress",
        help: PROGRESS_HELP,
    },
    WIDE,
];

// The option of this name.
fn named<'a>(alloc: Global, name: &'static str, action: ArgAction, help: &'static str) -> Arg<'a> {
    Arg::new(alloc, name).long(name).action(action).help(help)
}

// The option.
fn option<'a>(alloc: Global, choice: Choice) -> Arg<'a> {
    match choice {
        Choice::Number {
            name,
            word,
            least,
            most,
            default,
            help,
        } => {
            let range = i64::from(least)..=i64::from(most);
            let number = named(alloc, name, ArgAction::Set, help)
                .value_name(word)
                .value_parser(value_parser!(u32).range(range));
            match default {
                Some(default) => number.default_value(default),
                None => number.required(true),
            }
        }
        Choice::Flag { name, help } => named(alloc, name, ArgAction::SetTrue, help),
        Choice::Store => named(alloc, "store", ArgAction::Set, STORE_HELP)
            .value_name("KIND")
            .value_parser(STORES.as_slice())
            .default_value("leftist"),
        Choice::Journal => {
            named(alloc, "journal", ArgAction::Set, JOURNAL_HELP).value_name("FILE")
        }
        Choice::File => Arg::new(alloc, "file")
            .value_name("FILE")
            .action(ArgAction::Set)
            .help(FILE_HELP),
    }
}

// The command, with its options.
fn command_of<'a>(alloc: Global, described: &Described) -> Result<Command<'a>, AllocError> {
    let mut command = Command::new(alloc, described.name)
        .about(described.about)
        .long_about(described.help);
    for choice in described.choices {
        command = command.arg(option(alloc, *choice))?;
    }
    Ok(command)
}

// What the program is called, without its commands.
fn bare_command<'a>(alloc: Global) -> Result<Command<'a>, AllocError> {
    let named = Command::new(alloc, "flatpq").bin_name("flatpq")?;
    Ok(
        named
            .version("0.1.0")
            .about(ABOUT)
            .subcommand_required(true)
            .disable_help_subcommand(true),
    )
}

// All commands.
fn commands() -> [Described; 4] {
    [
        Described {
            name: "seq",
            about: SEQ_ABOUT,
            help: SEQ_HELP,
            choices: &SEQ,
        },
        Described {
            name: "walk",
            about: WALK_ABOUT,
            help: WALK_HELP,
            choices: &WALK,
        },
        Described {
            name: "load",
            about: LOAD_ABOUT,
            help: LOAD_HELP,
            choices: &LOAD,
        },
        Described {
            name: "audit",
            about: AUDIT_ABOUT,
            help: AUDIT_HELP,
            choices: &AUDIT,
        },
    ]
}

// What the program and each command is called and takes.
pub(crate) fn command<'a>(alloc: Global) -> Result<Command<'a>, AllocError> {
    let mut command = bare_command(alloc)?;
    for described in &commands() {
        command = command.subcommand(command_of(alloc, described)?)?;
    }
    Ok(command)
}
