// The words of the command line.
ghost use Rattle.std.specs.Prelude.{◌≡◌, ◌↔◌, ◌⊎◌, IsTrue, IsErrOf, IfOk, IfErr, IfSome, Some, None, is_some, true, false, codes};
ghost use Rattle.clap.specs.Values.{kind_of};
ghost use Rattle.clap.specs.Words.{first_value, found_of, one_text, subcommand_name_of};
ghost use Rattle.program_words.specs.declared.words.Job.{Job};
ghost use Rattle.program_words.specs.declared.words.Usage.TheVariants.{NoMemory};
ghost use Rattle.queue_texts.specs.declared.orders.ScanKind.{ScanKind};
ghost use Rattle.pq_types.specs.declared.journal.TheConstants.{GREATEST_NUMBER};
ghost use Rattle.pq_book.specs.Book.{IsRoom};
ghost use Rattle.program_words.specs.Words.{IsRunnable, IsKeptWhole, IsOfLoad, IsOfWidth, MayBeWritten, HasRoom, IsGiven};
ghost use Rattle.program_words.specs.Words.{KeepsIn, AsksForStore, IsUsageOf, job_word, store_word, usage_status};

use crate::options::command;
use crate::plan::{MOST_PUSHES, MOST_ROUNDS, MOST_WORKERS, Plan, PlanError};
use clap::error::ErrorKind;
use clap::parser::ValueSource;
use clap::{ArgMatches, Error};
use leftist_heap::StoreKind;
use pq_types::{GREATEST_NUMBER, MOST_LINES};
use queue_texts::ScanKind;
use std::alloc::{AllocError, Global};

/// What the words ask for.
#[derive(Clone, Copy)]
pub enum Job {
    /// Commands on a queue of one thread, with a journal of so many lines and a store of this kind, of
    /// wide items or of narrow ones.
    Seq {
        lines: u64,
        store: StoreKind,
        wide: bool,
    },
    /// A schedule of comers on a grid of splitters, with scans of this kind.
    Walk {
        scans: ScanKind,
    },
    /// Workers in threads that push and pop as this plan says, over a store of this kind, of wide items
    /// or of narrow ones.
    Load {
        plan: Plan,
        store: StoreKind,
        wide: bool,
    },
    /// The audit of a journal, whose items are wide or narrow.
    Audit {
        wide: bool,
    },
}

/// What the words ask for; the file that is read for it, standard input where none is named; the file
/// that its journal is written to, `-` for standard output, if any; and whether it is told how far a load
/// is.
#[derive(Drop)]
pub struct Asked<'a> {
    pub job: Job,
    pub file: Option<&'a str>,
    pub journal: Option<&'a str>,
    pub progress: bool,
}

/// Why no job is run.
#[derive(Drop)]
pub enum Usage {
    /// Help or the version was asked for: this text.
    Help(String),
    /// The words are refused: this text says why.
    Refused(String),
    /// The workers of a load were to pop more items than they push.
    PopsExceedPushes,
    /// A number of lines was given for a journal that is to last.
    LinesOfLasting,
    /// A journal was to be written that is not kept whole.
    JournalOfLasting,
    /// Memory was refused.
    NoMemory,
}

impl Usage {
    /// The exit status: 0 after help, 2 where the words are refused, 4 where memory is.
    pub fn status(&self) -> u8
        ensures { result ≡ usage_status self.now }
    {
        match self {
            Usage::Help(_) => 0,
            Usage::Refused(_)
            | Usage::PopsExceedPushes
            | Usage::LinesOfLasting
            | Usage::JournalOfLasting => 2,
            Usage::NoMemory => 4,
        }
    }
}

impl From<AllocError> for Usage {
    ghost from_gives = { λ _ usage. usage ≡ NoMemory };

    fn from(_error: AllocError) -> Usage {
        Usage::NoMemory
    }
}

// The text to print where the words name no job.
fn usage_of(alloc: Global, error: &Error) -> Usage
    ensures tells { IsUsageOf (kind_of error.now) result }
    ensures memory { kind_of error.now ≡ ErrorKind.OutOfMemory → result ≡ Usage.NoMemory }
{
    if error.kind() == ErrorKind::OutOfMemory {
        return Usage::NoMemory;
    }
    match error.to_string(alloc) {
        Ok(text) if error.use_stderr() => Usage::Refused(text),
        Ok(text) => Usage::Help(text),
        Err(_) => Usage::NoMemory,
    }
}

// The kind of store of this word, if it is one's.
fn store_of(word: &str) -> Option<StoreKind>
    ensures { IfSome result (λ kind. word.now ≡ store_word kind) }
{
    match word {
        "leftist" => Some(StoreKind::Leftist),
        "array" => Some(StoreKind::Array),
        "sorted" => Some(StoreKind::Sorted),
        _ => None,
    }
}

// The kind of store that is asked for.
fn store_asked(alloc: Global, matches: &ArgMatches<'_>) -> Result<StoreKind, Usage>
    ensures { IfOk result (AsksForStore (first_value (found_of matches.now) (codes "store"))) }
{
    let Some(word) = matches.get_str("store") else {
        return Ok(StoreKind::Leftist);
    };
    match store_of(word) {
        Some(kind) => Ok(kind),
        None => Err(Usage::Refused(String::from_str(alloc, "error: no such store\n")?)),
    }
}

// Whether the words give this option a value: its default doesn't count.
fn is_given(matches: &ArgMatches<'_>, name: &str) -> bool
    ensures { IsTrue result ↔ IsGiven (found_of matches.now) name.now }
{
    match matches.value_source(name) {
        Some(ValueSource::CommandLine) => true,
        Some(ValueSource::DefaultValue) | None => false,
    }
}

// The number of lines that `--lines` names.
fn short_lines(alloc: Global, matches: &ArgMatches<'_>) -> Result<u64, Usage>
    ensures { IfOk result (λ lines. IsRoom lines) }
{
    match matches.get_one::<u32>("lines") {
        Some(lines) if lines >= 1 && u64::from(lines) <= MOST_LINES => Ok(u64::from(lines)),
        _ => Err(Usage::Refused(String::from_str(alloc, "error: --lines out of range\n")?)),
    }
}

// How many lines the journal of `seq` has room for: 2^56 where it is to last, and then `--lines` names
// no number.
fn lines_asked(alloc: Global, matches: &ArgMatches<'_>) -> Result<u64, Usage>
    ensures room { IfOk result (λ lines. IsRoom lines ⊎ (lines ≡ GREATEST_NUMBER)) }
    ensures lasting { one_text (found_of matches.now) (codes "lasting") ≡ Some (codes "true")
        → IfOk result (λ lines. lines ≡ GREATEST_NUMBER) }
    ensures given { one_text (found_of matches.now) (codes "lasting") ≡ Some (codes "true")
        → IsGiven (found_of matches.now) (codes "lines")
        → IsErrOf result Usage.LinesOfLasting }
    ensures short { one_text (found_of matches.now) (codes "lasting") ≡ Some (codes "false")
        → IfOk result (λ lines. IsRoom lines) }
{
    if !matches.get_flag("lasting") {
        return short_lines(alloc, matches);
    }
    if is_given(matches, "lines") {
        return Err(Usage::LinesOfLasting);
    }
    Ok(GREATEST_NUMBER)
}

// The job of `seq`.
fn seq_job(alloc: Global, matches: &ArgMatches<'_>) -> Result<Job, Usage>
    ensures word { IfOk result (λ job. job_word job ≡ codes "seq") }
    ensures runnable { IfOk result (λ job. IsRunnable job) }
    ensures store { IfOk result (KeepsIn (first_value (found_of matches.now) (codes "store"))) }
    ensures lasting { one_text (found_of matches.now) (codes "lasting") ≡ Some (codes "true")
        → IfOk result (HasRoom GREATEST_NUMBER) }
    ensures given { one_text (found_of matches.now) (codes "lasting") ≡ Some (codes "true")
        → IsGiven (found_of matches.now) (codes "lines")
        → IsErrOf result Usage.LinesOfLasting }
    ensures short { one_text (found_of matches.now) (codes "lasting") ≡ Some (codes "false") → IfOk result IsKeptWhole }
    ensures wide { one_text (found_of matches.now) (codes "wide") ≡ Some (codes "true") → IfOk result (IsOfWidth true) }
    ensures narrow { one_text (found_of matches.now) (codes "wide") ≡ Some (codes "false") → IfOk result (IsOfWidth false) }
{
    let lines = lines_asked(alloc, matches)?;
    let store = store_asked(alloc, matches)?;
    let wide = matches.get_flag("wide");
    Ok(Job::Seq { lines, store, wide })
}

// The job of `walk`: its scans are trail scans where the words say so, else scans of diagonals.
fn walk_job(matches: &ArgMatches<'_>) -> Job
    ensures word { job_word result ≡ codes "walk" }
    ensures runnable { IsRunnable result }
    ensures trail { one_text (found_of matches.now) (codes "trail") ≡ Some (codes "true") → result ≡ Job.Walk ScanKind.Trails }
    ensures other { one_text (found_of matches.now) (codes "trail") ≡ Some (codes "false")
        → result ≡ Job.Walk ScanKind.Diagonals }
    ensures none { one_text (found_of matches.now) (codes "trail") ≡ None → result ≡ Job.Walk ScanKind.Diagonals }
{
    let scans = if matches.get_flag("trail") {
        ScanKind::Trails
    } else {
        ScanKind::Diagonals
    };
    Job::Walk { scans }
}

// The load of these numbers, if there is one.
fn plan_of(workers: u32, pushes: u32, pops: u32, rounds: u32) -> Result<Plan, PlanError>
    ensures ok { IfOk result (λ plan.
        (plan.workers ≡ workers) × (plan.pushes ≡ pushes) × (plan.pops ≡ pops) × (plan.rounds ≡ rounds)) }
{
    Plan::new(workers, pushes, pops)?.with_rounds(rounds)
}

// The job of `load`.
fn load_job(alloc: Global, matches: &ArgMatches<'_>) -> Result<Job, Usage>
    ensures word { IfOk result (λ job. job_word job ≡ codes "load") }
    ensures runnable { IfOk result (λ job. IsRunnable job) }
    ensures load { IfOk result (λ job. IsOfLoad job) }
    ensures store { IfOk result (KeepsIn (first_value (found_of matches.now) (codes "store"))) }
    ensures wide { one_text (found_of matches.now) (codes "wide") ≡ Some (codes "true") → IfOk result (IsOfWidth true) }
    ensures narrow { one_text (found_of matches.now) (codes "wide") ≡ Some (codes "false") → IfOk result (IsOfWidth false) }
{
    let store = store_asked(alloc, matches)?;
    let plan = match (
        matches.get_one::<u32>("workers"),
        matches.get_one::<u32>("pushes"),
        matches.get_one::<u32>("pops"),
        matches.get_one::<u32>("rounds"),
    ) {
        (Some(workers), Some(pushes), Some(pops), Some(rounds)) => {
            plan_of(workers, pushes, pops, rounds)
        }
        _ => Err(PlanError::OutOfRange),
    };
    let wide = matches.get_flag("wide");
    match plan {
        Ok(plan) => Ok(Job::Load { plan, store, wide }),
        Err(PlanError::PopsExceedPushes) => Err(Usage::PopsExceedPushes),
        Err(PlanError::OutOfRange) => Err(Usage::Refused(String::from_str(
            alloc,
            "error: a number out of range\n",
        )?)),
    }
}

// The job of `audit`.
fn audit_job(matches: &ArgMatches<'_>) -> Job
    ensures word { job_word result ≡ codes "audit" }
    ensures runnable { IsRunnable result }
    ensures wide { one_text (found_of matches.now) (codes "wide") ≡ Some (codes "true") → IsOfWidth true result }
    ensures narrow { one_text (found_of matches.now) (codes "wide") ≡ Some (codes "false") → IsOfWidth false result }
{
    let wide = matches.get_flag("wide");
    Job::Audit { wide }
}

// Whether the whole journal of this job's queue is kept.
fn is_kept_whole(job: Job) -> bool
    ensures { IsTrue result ↔ IsKeptWhole job }
{
    match job {
        Job::Seq {
            lines,
            store: _,
            wide: _,
        } => lines <= MOST_LINES,
        Job::Load {
            plan,
            store: _,
            wide: _,
        } => plan.is_short(),
        Job::Walk { scans: _ } | Job::Audit { wide: _ } => true,
    }
}

// A job that reads standard input, if any, and the file that its journal is written to, if any, which
// has to be kept whole for that.
fn without_file<'a>(job: Job, journal: Option<&'a str>) -> Result<Asked<'a>, Usage>
    ensures job { IfOk result (λ asked. asked.job ≡ job) }
    ensures journal { IfOk result (λ asked. asked.journal ≡ journal.entry) }
    ensures whole { IfOk result (λ asked. IfSome asked.journal (λ _. IsKeptWhole asked.job)) }
    ensures written { IfOk result (λ asked. IfSome asked.journal (λ file. MayBeWritten asked.job file.now)) }
    ensures err { IfErr result (λ error. (error ≡ Usage.JournalOfLasting) × (¬ IsKeptWhole job)) }
    ensures some { IfErr result (λ _. is_some journal.entry ≡ true) }
{
    if journal.is_some() && !is_kept_whole(job) {
        return Err(Usage::JournalOfLasting);
    }
    Ok(Asked {
        job,
        file: None,
        journal,
        progress: false,
    })
}

// What words ask for that ask for this load. Its journal, where it isn't kept whole, is written while it
// runs, and so not to standard output.
fn asked_load<'a>(job: Job, journal: Option<&'a str>, progress: bool) -> Result<Asked<'a>, Usage>
    requires { IsOfLoad job }
    ensures job { IfOk result (λ asked. asked.job ≡ job) }
    ensures journal { IfOk result (λ asked. asked.journal ≡ journal.entry) }
    ensures progress { IfOk result (λ asked. asked.progress ≡ progress) }
    ensures written { IfOk result (λ asked. IfSome asked.journal (λ file. MayBeWritten asked.job file.now)) }
    ensures err { IfErr result (λ error. (error ≡ Usage.JournalOfLasting) × (¬ IsKeptWhole job)) }
{
    let is_kept = is_kept_whole(job);
    match journal {
        Some("-") if !is_kept => Err(Usage::JournalOfLasting),
        _ => Ok(Asked {
            job,
            file: None,
            journal,
            progress,
        }),
    }
}

/// What the words ask for, of which the first is the program's name. Numbers are in their ranges, and
/// a journal is written only of a job whose queue keeps all of it, or of a load to a file.
pub fn read_words<'a>(alloc: Global, words: &'a [String]) -> Result<Asked<'a>, Usage>
    ensures runnable { IfOk result (λ asked. IsRunnable asked.job) }
    ensures written { IfOk result (λ asked. IfSome asked.journal (λ file. MayBeWritten asked.job file.now)) }
{
    match command(alloc)?.try_get_matches_from(words) {
        Ok(matches) => asked_of(alloc, &matches),
        Err(error) => Err(usage_of(alloc, &error)),
    }
}

// What these words ask for.
fn asked_of<'a>(alloc: Global, matches: &ArgMatches<'a>) -> Result<Asked<'a>, Usage>
    ensures word { IfOk result (λ asked. subcommand_name_of matches.now ≡ Some (job_word asked.job)) }
    ensures runnable { IfOk result (λ asked. IsRunnable asked.job) }
    ensures written { IfOk result (λ asked. IfSome asked.journal (λ file. MayBeWritten asked.job file.now)) }
{
    match matches.subcommand() {
        Some(("seq", seq)) => without_file(seq_job(alloc, seq)?, seq.get_str("journal")),
        Some(("walk", walk)) => without_file(walk_job(walk), None),
        Some(("load", load)) => {
            let journal = load.get_str("journal");
            asked_load(load_job(alloc, load)?, journal, load.get_flag("progress"))
        }
        Some(("audit", audit)) => Ok(Asked {
            job: audit_job(audit),
            file: audit.get_str("file"),
            journal: None,
            progress: false,
        }),
        _ => Err(Usage::Refused(String::from_str(
            alloc,
            "error: no subcommand
",
        )?)),
    }
}
