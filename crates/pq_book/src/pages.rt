// A journal of which the last lines are kept.
ghost use Rattle.std.specs.Prelude.{◌≡◌, ℕ, ◌+◌, ◌-◌, ◌^◌, ◌<◌, ◌≤◌, [], ◌∷◌, ◌++◌, length};
ghost use Rattle.std.specs.Prelude.{drop, vec_len, vec_capacity, IfOk, OnOk, OnErr};
ghost use Rattle.pq_book.specs.Pages.{Pages, all, turned};

use crate::forgotten::Forgotten;
use pq_types::{Line, Operation, Part, Reply, Request};
use std::alloc::{AllocError, Allocator};
use std::marker::Model;

/// A journal of which a page is kept: its last lines, at most so many as the page has room for. Of
/// the earlier lines no byte is kept. A contract sees all lines.
#[derive(Drop)]
pub struct Journal<A: Allocator, P: Part = u32> {
    forgotten: Forgotten,
    // A ring once lines are forgotten: the next one takes the place of the oldest.
    page: Vec<Line<P>, A>,
    oldest: usize,
    lines: u64,
}

impl<A: Allocator, P: Part> Model for Journal<A, P> {
    ghost use Rattle.std.specs.Prelude.{vec_capacity};
    ghost use Rattle.pq_book.specs.Pages.{Pages, IsRing, turned};

    ghost Value = { Pages };

    ghost view = { λ j. record {
      forgotten = j.forgotten.lines;
      kept = turned j.oldest j.page.items;
      page = vec_capacity j.page;
    } };

    ghost invariant = { λ j. IsRing j.forgotten.lines j.page.items j.oldest j.lines (vec_capacity j.page) };
}

impl<A: Allocator, P: Part> Journal<A, P> {
    /// No lines, with a page for so many. All memory is taken and touched here.
    pub fn new(alloc: A, page: usize) -> Result<Self, AllocError>
        requires { 0 < page }
        ensures { IfOk result (λ j. (j.forgotten ≡ []) × (j.kept ≡ []) × (j.page ≡ page)) }
    {
        Ok(Journal {
            forgotten: Forgotten::new(),
            page: blank_page(alloc, page)?,
            oldest: 0,
            lines: 0,
        })
    }

    /// How many lines there are in all.
    pub fn len(&self) -> u64
        ensures { result ≡ length (all self.now) }
    {
        self.lines
    }

    /// How many of them are forgotten.
    pub fn forgotten(&self) -> u64
        ensures { result ≡ length self.now.forgotten }
    {
        self.lines - self.page.len() as u64
    }

    /// One line more. Where the page is full, its oldest line is forgotten.
    #[inline(always)]
    pub fn add(&mut self, line: Line<P>)
        requires { length (all self.old) < 2 ^ 63 }
        ensures lines { all self.new ≡ all self.old ++ line ∷ [] }
        ensures page { self.new.page ≡ self.old.page }
        ensures kept { length self.old.kept < self.old.page → self.new.forgotten ≡ self.old.forgotten }
        ensures most { length self.old.kept ≤ self.old.page }
        ensures full { self.old.page ≤ length self.old.kept → length self.new.kept ≡ length self.old.kept }
    {
        if self.page.len() < self.page.capacity() {
            self.page.push_reserved(line);
        } else {
            let (next, first) = put_in_turn(&mut self.page, self.oldest, line);
            self.forgotten = self.forgotten.and(&first);
            self.oldest = next;
        }
        self.lines += 1;
    }

    /// The lines that are kept, the older ones first: all in the first piece while none is forgotten.
    pub fn kept(&self) -> (&[Line<P>], &[Line<P>])
        ensures lines { result.0.now ++ result.1.now ≡ self.now.kept }
        ensures straight { self.now.forgotten ≡ [] → result.0.now ≡ self.now.kept }
        ensures counted { length result.0.now + length result.1.now ≡ length self.now.kept }
    {
        let (newer, older) = self.page.split_at(self.oldest);
        (older, newer)
    }

    /// Copies the lines behind the first so many, all of which are kept, behind those of the
    /// archive. Where memory for them is refused, the archive is as it was.
    pub fn copy_from<B: Allocator>(
        &self,
        first: u64,
        archive: &mut Vec<Line<P>, B>,
    ) -> Result<(), AllocError>
        requires kept { length self.now.forgotten ≤ first }
        requires there { first ≤ length (all self.now) }
        ensures ok { OnOk result (archive.new.items ≡ archive.old.items ++ drop first (all self.now)) }
        ensures err { OnErr result (archive.new.items ≡ archive.old.items) }
    {
        let skipped = (first - self.forgotten()) as usize;
        let (older, newer) = self.kept();
        copy_behind(older, newer, skipped, archive)
    }

    /// The lines that are kept.
    pub fn into_kept(self) -> Vec<Line<P>, A>
        ensures { result.items ≡ self.kept }
    {
        let Journal {
            forgotten: _,
            mut page,
            oldest,
            lines: _,
        } = self;
        page.rotate_left(oldest);
        page
    }
}

// Puts the line in the place of the oldest one of a full page: the index of the next oldest, and the
// line that stood there.
fn put_in_turn<A: Allocator, P: Part>(
    page: &mut Vec<Line<P>, A>,
    oldest: usize,
    line: Line<P>,
) -> (usize, Line<P>)
    requires { oldest < vec_len page.old }
    ensures lines { turned oldest page.old.items ++ line ∷ [] ≡ result.1 ∷ turned result.0 page.new.items }
    ensures next { result.0 < vec_len page.new }
    ensures len { vec_len page.new ≡ vec_len page.old }
    ensures capacity { vec_capacity page.new ≡ vec_capacity page.old }
{
    let first = page[oldest];
    page[oldest] = line;
    if oldest + 1 < page.len() {
        return (oldest + 1, first);
    }
    (0, first)
}

// Copies those of the older and the newer lines that are behind the first so many.
fn copy_behind<B: Allocator, P: Part>(
    older: &[Line<P>],
    newer: &[Line<P>],
    skipped: usize,
    archive: &mut Vec<Line<P>, B>,
) -> Result<(), AllocError>
    requires { skipped ≤ length older.now + length newer.now }
    ensures ok { OnOk result (archive.new.items ≡ archive.old.items ++ drop skipped (older.now ++ newer.now)) }
    ensures err { OnErr result (archive.new.items ≡ archive.old.items) }
{
    let passed = skipped.min(older.len());
    let (_, older) = older.split_at(passed);
    let (_, newer) = newer.split_at(skipped - passed);
    archive.reserve(older.len() + newer.len())?;
    copy_reserved(older, archive);
    copy_reserved(newer, archive);
    Ok(())
}

// Copies lines for which there is room.
fn copy_reserved<B: Allocator, P: Part>(lines: &[Line<P>], archive: &mut Vec<Line<P>, B>)
    requires { vec_len archive.old + length lines.now ≤ vec_capacity archive.old }
    ensures items { archive.new.items ≡ archive.old.items ++ lines.now }
    ensures len { vec_len archive.new ≡ vec_len archive.old + length lines.now }
    ensures capacity { vec_capacity archive.old ≤ vec_capacity archive.new }
{
    if archive.extend_from_slice(lines).is_err() {
        unreachable!()
    }
}

// A page of so many lines, each of which was written.
fn written_page<A: Allocator, P: Part>(
    alloc: A,
    lines: usize,
) -> Result<Vec<Line<P>, A>, AllocError>
    ensures written { IfOk result (λ v. vec_len v ≡ lines) }
    ensures room { IfOk result (λ v. vec_capacity v ≡ lines) }
{
    let mut made = Vec::with_capacity(alloc, lines)?;
    for written in 0..lines {
        made.push_reserved(Line {
            serial: 0,
            operation: Operation::asked(Request::Least),
            reply: Reply::Empty,
            place: 0,
        });
    }
    Ok(made)
}

// An empty page with room for so many lines, each of which was written once, so that no page of
// memory is touched for the first time while a combiner holds the lock.
fn blank_page<A: Allocator, P: Part>(alloc: A, lines: usize) -> Result<Vec<Line<P>, A>, AllocError>
    ensures empty { IfOk result (λ v. v.items ≡ []) }
    ensures room { IfOk result (λ v. vec_capacity v ≡ lines) }
{
    let mut made = written_page(alloc, lines)?;
    made.clear();
    Ok(made)
}
