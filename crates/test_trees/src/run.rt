//! A run of the table, line by line: rows, with their steps in order and what those answer that are asked about; what a
//! refusal leaves as it is, told by numbers that are made without memory; and what went wrong.

use crate::step::{CHANGED, Done, NoAnswer, STEP, Step};
use crate::words::first_word;
use edit_change::Change;
use std::alloc::Global;
use std::hash::{DefaultHasher, Hash, Hasher};

// The number of a tree that a row names without one.
const TREE: u64 = 7;

/// The exit status where each row is answered as expected, but for one that ended because memory ran out.
pub const REFUSED: u8 = 3;

/// A row is taken, or it has no answer.
pub type Taken = Result<(), NoAnswer>;

/// What the steps of rows work on.
pub trait Steps {
    /// Takes up a tree of the table under this name.
    fn define(&mut self, name: &str, tree: &str) -> Taken;

    /// A new row begins: all that the steps of the last one made goes.
    fn clear(&mut self);

    /// What a refusal leaves as it is.
    fn standing(&self) -> Standing;

    fn answer(&mut self, step: &mut Step) -> Done;
}

pub fn hash_of<T: Hash>(value: &T) -> u64 {
    let mut hasher = DefaultHasher::new();
    value.hash(&mut hasher);
    hasher.finish()
}

/// Some values in their order: how many there are, what stands for all of them, and for all but the last.
#[derive(Clone, Copy, Default)]
pub struct Group {
    count: usize,
    pub all: u64,
    before_last: u64,
}

impl Group {
    pub fn of_count(count: usize) -> Group {
        Group {
            count,
            ..Group::default()
        }
    }

    pub fn add<T: Hash>(&mut self, value: &T) {
        self.count = self.count.saturating_add(1);
        self.before_last = self.all;
        self.all = hash_of(&(self.before_last, value));
    }

    /// One more change: its form, its gap or what it replaces, and its payload.
    pub fn add_change(&mut self, change: &Change) {
        match change {
            Change::Insert(at, _) => self.add(&(1, at.first_of(), at.after_of())),
            Change::InsertAll(at, _) => self.add(&(2, at.first_of(), at.after_of())),
            Change::Replace(old, _) => self.add(&(3, old)),
            Change::ReplaceWithMany(old, _) => self.add(&(4, old)),
            Change::ReplaceAll(first, end, _) => self.add(&(5, first, end)),
        }
        for element in change.payload() {
            self.add(element);
        }
    }

    // Whether the values are the same ones, but for a last one that was taken, or came.
    fn is_kept(&self, after: &Group) -> bool {
        match after.count {
            count if count < self.count => after.all == self.before_last,
            count if count > self.count => after.before_last == self.all,
            _ => after.all == self.all,
        }
    }
}

/// The number that the next tree gets, and all other values that steps work on, by their kinds.
#[derive(Clone, Copy)]
pub struct Standing {
    pub next: Option<u64>,
    pub groups: [Group; 7],
}

impl Standing {
    /// Whether the values are as they were, but for what a call took, and whether it took something, whatever numbers
    /// were drawn.
    pub fn kept_and_lost(&self, after: &Standing) -> (bool, bool) {
        let (mut is_kept, mut has_lost) = (true, false);
        for (own, after) in self.groups.iter().zip(&after.groups) {
            is_kept &= own.is_kept(after);
            has_lost |= after.count < own.count;
        }
        (is_kept, has_lost)
    }
}

// The steps of a row, as `WORDS: STEP ; STEP ; ..` or `? STEP`, an answer, and whether it is theirs (` = ANSWER`) or not
// (` != ANSWER`), so that the row fails where all answers are taken for equal.
fn read_row(line: &str) -> Option<(&str, &str, bool)> {
    let text = match line.strip_prefix("? ") {
        Some(step) => step,
        None => line.split_once(": ")?.1,
    };
    let (asked, answer) = text.split_once("= ")?;
    let is_it = !asked.ends_with(" !");
    let steps = asked.strip_suffix(if is_it { " " } else { " !" })?;
    Some((steps, answer, is_it))
}

/// What the lines of the table defined and asked about so far, and what went wrong.
#[derive(Drop)]
pub struct Run<S> {
    alloc: Global,
    steps: S,
    // The last call of the row that was refused because memory ran out, and what those steps answer that are asked about.
    refused: String,
    answers: String,
    // The calls that rows asked about, each with the first word of what it answered, and those that owe rows, with the
    // answers, as `CALL answers ANSWER`.
    asked: Vec<String>,
    owed: Vec<String>,
    // Whether the file, the table or that of a group, had a row, a tree or a group, and whether its end was there.
    has_lines: bool,
    is_ended: bool,
    /// Whether a row or a tree ended because memory ran out, so that the rows after it may lack a tree.
    pub is_cut: bool,
    // Whether the table is a part of one, run with growths refused; and how many lines went wrong.
    is_partial: bool,
    wrong: u32,
    /// What is to be printed, if memory does not run out.
    pub said: String,
}

macro_rules! print_line {
    ($run:ident, $($written:tt)*) => {{
        let written = writeln!($run.said, $($written)*);
        $run.is_cut |= written.is_err();
    }};
}

impl<S: Steps> Run<S> {
    pub fn new(alloc: Global, steps: S) -> Run<S> {
        Run {
            alloc,
            steps,
            refused: String::new(alloc),
            answers: String::new(alloc),
            asked: Vec::new(alloc),
            owed: Vec::new(alloc),
            has_lines: false,
            is_ended: false,
            is_cut: false,
            is_partial: false,
            wrong: 0,
            said: String::new(alloc),
        }
    }

    /// Takes all lines of a group, and says that none went wrong, where that is so.
    pub fn take_group(&mut self, name: &str, lines: &str) {
        let wrong_before = self.wrong;
        (self.has_lines, self.is_ended) = (false, false);
        for line in lines.lines() {
            if self.take_line(line).is_some() {
                self.note_wrong(line, "a group names a group");
            }
        }
        self.note_end_of(name);
        (self.has_lines, self.is_ended) = (true, false);
        if self.wrong == wrong_before {
            print_line!(self, "{name}: as expected");
        }
    }

    /// Takes the next line, and gives the name of the group whose lines it stands for. How it begins tells what it is.
    pub fn take_line<'a>(&mut self, line: &'a str) -> Option<&'a str> {
        let (form, words) = first_word(line);
        if self.is_ended {
            self.note_wrong(line, "the file goes on after its end");
            return None;
        }
        match form {
            "" => (),
            "end" if words.is_empty() => {
                self.is_ended = true;
                if !self.has_lines {
                    self.note_wrong(line, "the file has no row");
                }
            }
            "growths" if words == "are refused" => self.is_partial = true,
            "owes" => {
                let done = self.owe(words);
                self.note_end(line, done);
            }
            "group" => {
                self.has_lines = true;
                return Some(words);
            }
            "tree" => {
                self.has_lines = true;
                let (name, tree) = first_word(words);
                let done = self.steps.define(name, tree);
                self.note_end(line, done);
            }
            _ if form.starts_with('#') => (),
            _ => self.take_row(line),
        }
        None
    }

    // Says which call of the row was refused, and what it answers if that is not as expected.
    fn take_row(&mut self, line: &str) {
        self.has_lines = true;
        let Some((steps, answer, is_it)) = read_row(line) else {
            return self.note_wrong(line, "the line is malformed");
        };
        let done = self.take_steps(steps);
        if !self.refused.is_empty() {
            print_line!(self, "Memory: {}", self.refused);
        }
        if done.is_ok() && (self.answers.as_str() == answer) != is_it {
            self.wrong = self.wrong.saturating_add(1);
            print_line!(self, "{line}\n    but: {}", self.answers);
        }
        self.note_end(line, done);
    }

    // Takes the steps of a row in their order. The last one and each after `?` is asked about.
    fn take_steps(&mut self, steps: &str) -> Taken {
        self.steps.clear();
        self.refused.clear();
        self.answers.clear();
        let (before, last) = steps.rsplit_once(" ; ").unwrap_or(("", steps));
        for step in before.split(" ; ") {
            match step.strip_prefix("? ") {
                Some(step) => self.ask(step)?,
                None if step.is_empty() => (),
                None => self.go_on(step)?,
            }
        }
        self.ask(last.strip_prefix("? ").unwrap_or(last))
    }

    // A step that must be done, or one after `try `, which may be refused.
    fn go_on(&mut self, step: &str) -> Taken {
        let tried = step.strip_prefix("try ");
        let answer = self.repeated(tried.unwrap_or(step))?;
        if tried.is_none() && !answer.starts_with("ok") {
            return Err(NoAnswer::Row("a step is refused"));
        }
        Ok(())
    }

    // A step that is not done leaves all as it was; if it does not, the answer says so.
    fn ask(&mut self, step: &str) -> Taken {
        let before = self.steps.standing();
        let mut answer = self.repeated(step)?;
        if !answer.starts_with("ok") {
            push_changed(&mut answer, &before, &self.steps.standing())?;
        }
        self.note(first_word(step).0, &answer)
    }

    fn note(&mut self, call: &str, answer: &str) -> Taken {
        let before = if self.answers.is_empty() { "" } else { " ; " };
        write!(self.answers, "{before}{answer}")?;
        let pair = format!(in self.alloc; "{call} answers {}", first_word(answer).0)?;
        Ok(self.asked.push(pair)?)
    }

    // Where the call is refused because memory ran out it is made once more, if all is there that it works on. So what
    // is asked after it shows that the refusal left all as it was.
    fn repeated(&mut self, step: &str) -> Result<String, NoAnswer> {
        let before = self.steps.standing();
        match self.answer_to(step) {
            Err(NoAnswer::Refused(call)) => {
                let name = first_word(step).0;
                self.note_refusal(if call == STEP { name } else { call }, &before)?;
                self.answer_to(step)
            }
            answered => answered,
        }
    }

    // Notes that a call was refused because memory ran out, where all is as it was and is there to call it again.
    fn note_refusal(&mut self, call: &str, before: &Standing) -> Taken {
        self.refused = String::from_str(self.alloc, call)?;
        let after = self.steps.standing();
        match before.kept_and_lost(&after) {
            (true, true) if before.next == after.next => Err(NoAnswer::Memory),
            (true, false) if before.next == after.next => Ok(()),
            _ => Err(CHANGED),
        }
    }

    // A call that gives nothing answers `ok`, and one that is refused the name of the refusal, unless that is for want
    // of memory.
    fn answer_to(&mut self, words: &str) -> Result<String, NoAnswer> {
        let (name, words) = first_word(words);
        let mut step = Step::of(self.alloc, name, words, TREE);
        let taken = self.steps.answer(&mut step);
        if let Some(call) = step.refused {
            self.refused = String::from_str(self.alloc, call)?;
        }
        if step.text.is_empty() {
            step.put("ok");
        }
        let is_memory = step.text.as_str() == "Memory";
        match step.end {
            None if taken.is_none() => Err(NoAnswer::Row("what the step works on is not there")),
            None if step.has_words() => Err(NoAnswer::Arguments),
            Some(NoAnswer::Refusal) if is_memory => Err(NoAnswer::Refused(STEP)),
            None | Some(NoAnswer::Refusal) => Ok(step.text),
            Some(why) => Err(why),
        }
    }

    fn owe(&mut self, call: &str) -> Taken {
        let (call, named) = first_word(call);
        for answer in first_word(named).1.split(' ') {
            self.owed
                .push(format!(in self.alloc; "{call} answers {answer}")?)?;
        }
        Ok(())
    }

    fn note_end(&mut self, text: &str, done: Taken) {
        match done {
            Ok(()) => (),
            Err(NoAnswer::Memory) => self.is_cut = true,
            Err(reason) => self.note_wrong(text, reason.why()),
        }
    }

    pub fn note_wrong(&mut self, line: &str, why: &str) {
        self.wrong = self.wrong.saturating_add(1);
        print_line!(self, "{line}\n    but: {why}");
    }

    // What was read of a file goes wrong where its end is not there, unless memory ran out before it.
    fn note_end_of(&mut self, file: &str) {
        if !self.is_ended && !self.is_cut {
            self.note_wrong(file, "its last line is not `end`");
        }
    }

    // Says each answer that a call owes and that no row has, and how many one has. Gives the number of the others.
    fn note_missing(&mut self) -> usize {
        let mut lacks = 0_usize;
        for pair in &self.owed {
            if !self.asked.contains(pair) {
                lacks = lacks.saturating_add(1);
                print_line!(self, "no row: {pair}");
            }
        }
        let (all, have) = (self.owed.len(), self.owed.len().saturating_sub(lacks));
        print_line! { self, "{have} of {all} owed pairs of a call and its answer have a row" }
        lacks
    }

    /// Says how many owed pairs have a row and whether all rows answered as expected. Gives the exit status.
    pub fn close(&mut self) -> u8 {
        self.note_end_of("the table");
        let mut lacks = 0;
        if !self.is_partial {
            lacks = self.note_missing();
            match self.wrong {
                0 => print_line!(self, "all rows answer as expected"),
                wrong => print_line!(self, "{wrong} lines of the table are wrong"),
            }
        }
        match (self.wrong, lacks) {
            (0, 0) if self.is_cut => REFUSED,
            (0, 0) => 0,
            _ => 1,
        }
    }
}

fn push_changed(answer: &mut String, before: &Standing, after: &Standing) -> Taken {
    if before.next != after.next {
        answer.push_str(" and a number is drawn")?;
    }
    if !before.kept_and_lost(after).0 {
        answer.push_str(" and something else is changed")?;
    }
    Ok(())
}
