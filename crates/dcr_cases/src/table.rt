// The table: each line is a mark, a space and a text. `=` begins a row with its name, and the row before it is tried then.
use crate::row::Row;
use crate::spell::{Pieces, wrong};
use dcr_text::read_decimal;
use std::alloc::Global;
use std::io;
use std::sync::Wait;
use std::thread::Threads;

#[derive(Drop)]
pub(crate) struct Table {
    pieces: Pieces,
    // The words and the status of a row are those of the row before it, where it has none.
    words: Vec<String>,
    status: u8,
    row: Row,
    is_begun: bool,
    // What is to be replaced in the input.
    old: Vec<u8>,
    held: u32,
}

impl Table {
    pub(crate) fn new(alloc: Global) -> io::Result<Table> {
        Ok(Table {
            pieces: Pieces::new(alloc),
            words: Vec::new(alloc),
            status: 0,
            row: Row::new(alloc, "")?,
            is_begun: false,
            old: Vec::new(alloc),
            held: 0,
        })
    }

    // The name of the row that was begun last.
    pub(crate) fn name(&self) -> &str {
        self.row.name.as_str()
    }

    // How many rows hold.
    pub(crate) fn held(&self) -> u32 {
        self.held
    }

    // Takes a line, and gives what is wrong of the row that it ends; empty where that row holds, or none is ended.
    pub(crate) fn take<R: Threads + Wait + Sync>(
        &mut self,
        rt: &R,
        alloc: Global,
        line: &str,
    ) -> io::Result<String> {
        let (mark, text) = line.split_once(' ').unwrap_or((line, ""));
        if mark == "=" {
            return self.begin(rt, alloc, text);
        }
        self.add(alloc, mark, text)?;
        Ok(String::new(alloc))
    }

    // Tries the row that was begun, where there is one, and begins another one where it holds.
    fn begin<R: Threads + Wait + Sync>(
        &mut self,
        rt: &R,
        alloc: Global,
        name: &str,
    ) -> io::Result<String> {
        if self.is_begun {
            let told = self.row.wrong(rt, alloc, &self.words, self.status)?;
            if !told.is_empty() {
                return Ok(told);
            }
            self.held = self.held.saturating_add(1);
        }
        self.row = Row::new(alloc, name)?;
        self.is_begun = true;
        Ok(String::new(alloc))
    }

    // Adds what a line says to the row that was begun, or to the pieces.
    fn add(&mut self, alloc: Global, mark: &str, text: &str) -> io::Result<()> {
        let Table { pieces, row, .. } = self;
        match mark {
            "" | "#" => Ok(()),
            ":" => {
                let (name, text) = text.split_once(' ').unwrap_or((text, ""));
                pieces.add(alloc, name, text)
            }
            "$" => self.set_words(alloc, text),
            "?" => self.set_status(text),
            "<" => pieces.spell(alloc, text, &mut row.input),
            "<|" => pieces.spell_line(alloc, text, &mut row.input),
            ">" => pieces.spell_line(alloc, text, &mut row.want),
            "^" => pieces.spell(alloc, text, &mut row.front),
            "-" => pieces.spell(alloc, text, &mut self.old),
            "+" => self.replace(alloc, text),
            "[" => pieces.spell(alloc, text, row.tape_mut(alloc)),
            "]" => {
                let _tape = row.tape_mut(alloc);
                pieces.spell(alloc, text, &mut row.kept)
            }
            _ => Err(wrong()),
        }
    }

    fn set_words(&mut self, alloc: Global, text: &str) -> io::Result<()> {
        self.words.clear();
        if text.is_empty() {
            return Ok(());
        }
        for word in text.split(' ') {
            let word = if word == "~" { "" } else { word };
            self.words.push(String::from_str(alloc, word)?)?;
        }
        Ok(())
    }

    fn set_status(&mut self, text: &str) -> io::Result<()> {
        let Some(status) = read_decimal(text.as_bytes()) else {
            return Err(wrong());
        };
        self.status = u8::try_from(status).map_err(|_| wrong())?;
        Ok(())
    }

    // What was to be replaced has to stand in the input.
    fn replace(&mut self, alloc: Global, text: &str) -> io::Result<()> {
        let mut new = Vec::new(alloc);
        self.pieces.spell(alloc, text, &mut new)?;
        let is_there = self.row.replace(alloc, &self.old, &new)?;
        self.old.clear();
        if is_there { Ok(()) } else { Err(wrong()) }
    }
}
