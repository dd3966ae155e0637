// The words of the command, taken one after the other.
ghost use Rattle.std.specs.Prelude.{◌≡◌, ◌≢◌, ◌↔◌, ◌||◌, true, false, IsOk};
ghost use Rattle.paper.specs.Lists.{same};
ghost use Rattle.desk.specs.Words.{NamesCounted, NamesOrdered, NamesTaken, is_name, ends_options, asks_search, is_option, Goes};
ghost use Rattle.desk.specs.declared.words.Way.TheVariants as way;

// Which search is run.
#[derive(Clone, Copy, Debug, PartialEq, Eq)]
pub enum Way {
    Overlapping,
    Plain,
    Longest,
    First,
}

impl Way {
    // The search that a word names.
    fn named(word: &[u8]) -> Option<Self> {
        match word {
            b"overlapping" => Some(Way::Overlapping),
            b"plain" => Some(Way::Plain),
            b"longest" => Some(Way::Longest),
            b"first" => Some(Way::First),
            _ => None,
        }
    }
}

// Why the words are not taken.
#[derive(Clone, Copy, Debug, PartialEq, Eq)]
pub enum Fault {
    UnknownOption,
    UnknownSearch,
    NoSearch,
    OneName,
    ThirdName,
    LongWord,
}

// What a word was.
#[derive(Clone, Copy, Debug, PartialEq, Eq)]
pub enum Word {
    // An option, or the search that one asks for.
    Setting,
    // The name of the list.
    List,
    // The name of the sheet.
    Sheet,
    // Nothing else is wanted.
    Help,
}

// What is wanted, after some words.
#[derive(Clone, Copy, Debug, PartialEq, Eq)]
pub struct Wish {
    pub way: Way,
    pub numbers: bool,
    pub names: u32,
    // The options are over.
    pub over: bool,
    // The next word says the search.
    choosing: bool,
}

impl Wish {
    // What is wanted where there are no words.
    pub fn first() -> Self
        ensures search { (result.way ≡ way.Overlapping) × (result.numbers ≡ false) }
        ensures words { (result.names ≡ 0) × (result.choosing ≡ false) × (result.over ≡ false) }
    {
        Wish {
            way: Way::Overlapping,
            numbers: false,
            names: 0,
            over: false,
            choosing: false,
        }
    }

    // A word more: what it is, and what is wanted then.
    pub fn take(&mut self, word: &[u8]) -> Result<Word, Fault>
        ensures counted { NamesCounted self.old.names self.new.names result }
        ensures ordered { NamesOrdered self.old.names result }
        ensures taken { NamesTaken (is_name self.old.choosing self.old.over word.now) result }
        ensures next { Goes (self.old.over || is_option self.old.choosing self.old.over word.now ends_options)
            (is_option self.old.choosing self.old.over word.now asks_search) self.new.over self.new.choosing result }
    {
        if self.choosing {
            self.way = Way::named(word).ok_or(Fault::UnknownSearch)?;
            self.choosing = false;
            return Ok(Word::Setting);
        }
        if self.over || !word.starts_with(b"-") {
            return self.take_name();
        }
        self.take_option(word)
    }

    // By `==`, which says of the whole word whether it is the option: the clause `next` speaks of it.
    #[tactic(auto, using(crate::proofs::Scanning::same_pointwise))]
    fn take_option(&mut self, word: &[u8]) -> Result<Word, Fault>
        ensures counted { NamesCounted self.old.names self.new.names result }
        ensures ordered { NamesOrdered self.old.names result }
        ensures taken { NamesTaken false result }
        ensures next { Goes (self.old.over || same word.now ends_options) (self.old.choosing || same word.now asks_search)
            self.new.over self.new.choosing result }
    {
        if word == b"--".as_slice() {
            self.over = true;
        } else if word == b"--search".as_slice() {
            self.choosing = true;
        } else if word == b"--numbers".as_slice() {
            self.numbers = true;
        } else if word == b"--help".as_slice() || word == b"-h".as_slice() {
            return Ok(Word::Help);
        } else {
            return Err(Fault::UnknownOption);
        }
        Ok(Word::Setting)
    }

    fn take_name(&mut self) -> Result<Word, Fault>
        ensures counted { NamesCounted self.old.names self.new.names result }
        ensures ordered { NamesOrdered self.old.names result }
        ensures taken { NamesTaken true result }
        ensures next { (self.new.over ≡ self.old.over) × (self.new.choosing ≡ self.old.choosing) }
    {
        let word = match self.names {
            0 => Word::List,
            1 => Word::Sheet,
            _ => return Err(Fault::ThirdName),
        };
        self.names += 1;
        Ok(word)
    }

    // After the last word.
    pub fn end(&self) -> Result<(), Fault>
        ensures { IsOk result ↔ ((self.now.choosing ≡ false) × (self.now.names ≢ 1)) }
    {
        if self.choosing {
            return Err(Fault::NoSearch);
        }
        if self.names == 1 {
            return Err(Fault::OneName);
        }
        Ok(())
    }
}
