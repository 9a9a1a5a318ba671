// The words of the command line: a run.
use crate::load::Load;
use flat_queue::{Naps, Rest};

/// How the program is called.
pub const USAGE: &str = "\
usage: queue_bench array|array-lasting|array-posts|array-rounds|mutex-book WORKERS PUSHES POPS \
[SPINS YIELDS NAP LONGEST EACH]";

/// What the workers share.
#[derive(Clone, Copy)]
pub enum Kind {
    /// A queue over a heap in one array, which has room for all items from the start.
    Array,
    /// A lasting queue over that heap: of its journal memory holds the last lines alone.
    ArrayLasting,
    /// A queue over that heap, where each call posts its request.
    ArrayPosts,
    /// A queue over that heap, whose workers post, make the rounds themselves and tell what these did.
    ArrayRounds,
    /// A lock round a Book over that heap.
    MutexBook,
}

/// A run: what the workers share, with the word for it, what they do, and how those of a queue rest.
#[derive(Clone, Copy)]
pub struct Trial<'a> {
    pub word: &'a str,
    pub kind: Kind,
    pub load: Load,
    pub rest: Rest,
}

// The kind of this word.
fn named(word: &str) -> Option<Kind> {
    match word {
        "array" => Some(Kind::Array),
        "array-lasting" => Some(Kind::ArrayLasting),
        "array-posts" => Some(Kind::ArrayPosts),
        "array-rounds" => Some(Kind::ArrayRounds),
        "mutex-book" => Some(Kind::MutexBook),
        _ => None,
    }
}

fn number(word: &String) -> Option<u32> {
    word.as_str().parse::<u32>().ok()
}

// A way to rest. Without a first nap there are none.
fn read_rest(pauses: [&String; 2], nap: &String, longest: &String, each: &String) -> Option<Rest> {
    let [spins, yields] = pauses;
    let next = number(nap)?;
    let longest = number(longest)?;
    let each = number(each)?;
    Some(Rest {
        tries: 0,
        spins: number(spins)?,
        yields: number(yields)?,
        naps: if next == 0 {
            None
        } else {
            Some(Naps {
                next,
                longest,
                each,
            })
        },
    })
}

/// What the words ask for. Where they name no way to rest the workers do so as each member does.
pub fn read_words(words: &[String]) -> Option<Trial<'_>> {
    let (kind, workers, pushes, pops, rest) = match words {
        [kind, workers, pushes, pops] => (kind, workers, pushes, pops, Rest::DEFAULT),
        [
            kind,
            workers,
            pushes,
            pops,
            spins,
            yields,
            nap,
            longest,
            each,
        ] => {
            (
                kind,
                workers,
                pushes,
                pops,
                read_rest([spins, yields], nap, longest, each)?,
            )
        }
        _ => return None,
    };
    Some(Trial {
        word: kind.as_str(),
        kind: named(kind.as_str())?,
        load: Load::new(number(workers)?, number(pushes)?, number(pops)?)?,
        rest,
    })
}
