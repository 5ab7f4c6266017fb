//! Transcripts: their lines read into steps.
use crate::rows::Kinds;
use crate::text::{
    answer, first_word, number_of, push_escaped, push_line, push_times, status_of, unread,
};
use std::alloc::Global;
use std::io;

/// What a step does.
#[derive(Clone, Copy)]
pub enum Deed {
    /// Asks; the head lacks the length of the body.
    Ask,
    /// Asks these very bytes.
    Raw,
    /// Does nothing; it is a heading where steps are shown.
    Say,
    /// Imports a lab file.
    Import,
    /// Reports; the words are the report's name and the minutes east of UTC.
    Report,
    /// Reports how many commands were accepted.
    Count,
    /// One statement on the store.
    Sql,
    /// The store is closed in order, or by a crash.
    Close,
    Crash,
    /// The farm is found in the store.
    Open,
    /// The log, or the tables' file, stops after so many calls.
    Fuse,
    /// Tables of the first edition are made this one's; at first it is stopped at each call.
    Migrate,
    MigrateStopped,
    /// The steps up to the next `End` are stopped at each call.
    Stops,
    End,
}

/// The deeds of the words with which lines begin.
const DEEDS: [(&str, Deed); 13] = [
    ("#!", Deed::Say),
    ("import", Deed::Import),
    ("report", Deed::Report),
    ("count", Deed::Count),
    ("sql", Deed::Sql),
    ("close", Deed::Close),
    ("crash", Deed::Crash),
    ("open", Deed::Open),
    ("fuse", Deed::Fuse),
    ("migrate", Deed::Migrate),
    ("migrate_stopped", Deed::MigrateStopped),
    ("stops", Deed::Stops),
    ("end", Deed::End),
];

impl Deed {
    /// Whether a farm's keeper is asked.
    pub fn is_asked(self) -> bool {
        matches!(
            self,
            Deed::Ask | Deed::Raw | Deed::Import | Deed::Report | Deed::Count
        )
    }

    /// The deed of a line that begins with that word.
    fn of(word: &str) -> Option<Deed> {
        for (name, deed) in &DEEDS {
            if *name == word {
                return Some(*deed);
            }
        }
        None
    }

    /// The word with which its line begins.
    pub fn word(self) -> &'static str {
        for (word, deed) in &DEEDS {
            if *deed as u8 == self as u8 {
                return word;
            }
        }
        ">"
    }
}

/// A step, what it is given and what it has to give: one of the wanted.
#[derive(Drop)]
pub struct Step {
    pub line: u64,
    pub deed: Deed,
    pub now: u64,
    /// A request's head, or the words behind a deed's word.
    pub head: Vec<u8>,
    pub body: Vec<u8>,
    pub wanted: Vec<Vec<u8>>,
}

impl Step {
    /// A step of a line that has no words yet.
    fn new(alloc: Global, line: u64, deed: Deed, now: u64) -> Step {
        Step {
            line,
            deed,
            now,
            head: Vec::new(alloc),
            body: Vec::new(alloc),
            wanted: Vec::new(alloc),
        }
    }
}

/// A transcript, and the places of those whose steps go before its own.
#[derive(Drop)]
pub struct Transcript {
    pub name: String,
    pub after: Vec<usize>,
    pub steps: Vec<Step>,
}

/// What is read of the files so far.
#[derive(Drop)]
pub struct Reading {
    alloc: Global,
    line: u64,
    now: u64,
    fields: String,
    rows: Kinds,
    pub done: Vec<Transcript>,
}

impl Reading {
    pub fn new(alloc: Global) -> Reading {
        Reading {
            alloc,
            line: 0,
            now: 0,
            fields: String::new(alloc),
            rows: Kinds::new(alloc),
            done: Vec::new(alloc),
        }
    }

    fn transcript(&mut self) -> io::Result<&mut Transcript> {
        self.done.last_mut().ok_or(unread())
    }

    /// The step that is being read.
    fn step(&mut self) -> io::Result<&mut Step> {
        self.transcript()?.steps.last_mut().ok_or(unread())
    }

    fn begin(&mut self, name: &str) -> io::Result<()> {
        self.now = 0;
        let name = String::from_str(self.alloc, name)?;
        let (after, steps) = (Vec::new(self.alloc), Vec::new(self.alloc));
        self.done.push(Transcript { name, after, steps })?;
        Ok(())
    }

    /// The place of the transcript of that name.
    fn place_of(&self, name: &str) -> io::Result<usize> {
        for (place, one) in self.done.iter().enumerate() {
            if one.name.as_str() == name {
                return Ok(place);
            }
        }
        Err(unread())
    }

    /// The places of those that go before the transcript at a place, and this place.
    fn with_before(&self, place: usize) -> io::Result<Vec<usize>> {
        let one = self.done.get(place).ok_or(unread())?;
        let mut after = one.after.clone()?;
        after.push(place)?;
        Ok(after)
    }

    /// The steps of the transcript of that name go first, behind those that go before them.
    fn go_after(&mut self, name: &str) -> io::Result<()> {
        let after = self.with_before(self.place_of(name)?)?;
        self.transcript()?.after = after;
        Ok(())
    }

    /// The next step of the transcript.
    fn push(&mut self, step: Step) -> io::Result<()> {
        match self.done.last_mut() {
            Some(transcript) => Ok(transcript.steps.push(step)?),
            None => Err(unread()),
        }
    }

    fn add(&mut self, deed: Deed, head: &str) -> io::Result<()> {
        let step = Step::new(self.alloc, self.line, deed, self.now);
        self.push(step)?;
        self.step()?.head.extend_from_slice(head.as_bytes())?;
        Ok(())
    }

    /// The fields of who asks: `-`, a name, or a name, a slash and a key.
    fn ask_as(&mut self, who: &str) -> io::Result<()> {
        let (user, key) = who.split_once("/").unwrap_or((who, ""));
        if user != "-" {
            self.field("x-user", user)?;
        }
        if !key.is_empty() {
            self.field("x-key", key)?;
        }
        Ok(())
    }

    /// A request with that first line.
    fn ask_by(&mut self, line: &str, who: &str, body: &str) -> io::Result<()> {
        self.add(Deed::Ask, line)?;
        self.ask_as(who)?;
        self.step()?.body.extend_from_slice(body.as_bytes())?;
        Ok(())
    }

    /// A request: WHO METHOD PATH BODY.
    fn ask(&mut self, text: &str) -> io::Result<()> {
        let (who, rest) = first_word(text);
        let (method, rest) = first_word(rest);
        let (path, body) = first_word(rest);
        let line = format!(in self.alloc; "{method} {path} HTTP/1.1\r\n")?;
        self.ask_by(line.as_str(), who, body)
    }

    fn field(&mut self, name: &str, value: &str) -> io::Result<()> {
        let line = format!(in self.alloc; "{name}: {value}\r\n")?;
        self.step()?.head.extend_from_slice(line.as_bytes())?;
        Ok(())
    }

    /// Adds so many times the text: N TEXT.
    fn times(&mut self, text: &str) -> io::Result<()> {
        let (times, text) = first_word(text);
        let times = number_of(times)?;
        let step = self.step()?;
        if matches!(step.deed, Deed::Raw) {
            push_times(&mut step.head, times, text)
        } else {
            push_times(&mut step.body, times, text)
        }
    }

    /// Another right answer.
    fn want_other(&mut self) -> io::Result<()> {
        let none = Vec::new(self.alloc);
        self.step()?.wanted.push(none)?;
        Ok(())
    }

    /// The answer that is being read.
    fn wanted(&mut self) -> io::Result<&mut Vec<u8>> {
        if self.step()?.wanted.is_empty() {
            self.want_other()?;
        }
        self.step()?.wanted.last_mut().ok_or(unread())
    }

    /// An answer: STATUS BODY.
    fn want_answer(&mut self, text: &str) -> io::Result<()> {
        let (status, body) = first_word(text);
        let status = status_of(status)?;
        let whole = answer(self.alloc, status, self.fields.as_str(), body)?;
        self.fields.clear();
        self.wanted()?.extend_from_slice(whole.as_bytes())?;
        Ok(())
    }

    /// An answer with short rows: STATUS BODY.
    fn want_rows(&mut self, text: &str) -> io::Result<()> {
        let whole = self.rows.written_out(text)?;
        self.want_answer(whole.as_str())
    }

    fn want_field(&mut self, text: &str) -> io::Result<()> {
        self.fields.push_str(text)?;
        self.fields.push_str("\r\n")?;
        Ok(())
    }

    /// A request of these very bytes.
    fn ask_raw(&mut self, text: &str) -> io::Result<()> {
        self.add(Deed::Raw, "")?;
        self.add_to_head(text)
    }

    fn add_to_head(&mut self, text: &str) -> io::Result<()> {
        push_escaped(&mut self.step()?.head, text)
    }

    fn add_to_body(&mut self, line: &str) -> io::Result<()> {
        let step = self.step()?;
        Ok(push_line(&mut step.body, line)?)
    }

    fn want_bytes(&mut self, text: &str) -> io::Result<()> {
        push_escaped(self.wanted()?, text)
    }

    fn want_line(&mut self, line: &str) -> io::Result<()> {
        let wanted = self.wanted()?;
        Ok(push_line(wanted, line)?)
    }

    /// A line that says what is given or wanted.
    fn mark(&mut self, mark: &str, text: &str) -> io::Result<()> {
        match mark {
            ">" => self.ask(text),
            ">>" => self.ask_raw(text),
            ">+" => self.add_to_head(text),
            ">*" => self.times(text),
            "|" => self.add_to_body(text),
            "<" => self.want_answer(text),
            "<=" => self.want_rows(text),
            "<+" => self.want_field(text),
            "<<" => self.want_bytes(text),
            "=" => self.want_line(text),
            _ => Err(unread()),
        }
    }

    /// The moment of the steps that follow.
    fn be_at(&mut self, text: &str) -> io::Result<()> {
        self.now = number_of(text)?;
        Ok(())
    }

    /// A line that begins with a word.
    fn word(&mut self, word: &str, text: &str) -> io::Result<()> {
        if let Some(deed) = Deed::of(word) {
            return self.add(deed, text);
        }
        match word {
            "==" => self.begin(text),
            "after" => self.go_after(text),
            "at" => self.be_at(text),
            "or" => self.want_other(),
            "row" => self.rows.begin(text),
            "member" => self.rows.member(text),
            _ => self.mark(word, text),
        }
    }

    /// Reads that line of a file.
    pub fn line(&mut self, number: u64, line: &str) -> io::Result<()> {
        self.line = number;
        if line.is_empty() || (line.starts_with("#") && !line.starts_with("#! ")) {
            return Ok(());
        }
        let (word, text) = first_word(line);
        self.word(word, text)
    }
}
