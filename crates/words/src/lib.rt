// A line of a program's input: its name and what follows it, word by word.
#![tactic(auto)]

use anyhow::{Context, ensure};
use std::str::SplitWhitespace;

#[derive(Drop)]
pub struct Words<'a> {
    words: SplitWhitespace<'a>,
}

impl<'a> Words<'a> {
    pub fn new(line: &'a str) -> Words<'a> {
        Words {
            words: line.split_whitespace(),
        }
    }

    // The next word, or nothing after the last.
    pub fn word(&mut self) -> &'a str {
        self.words.next().unwrap_or("")
    }

    // The next word, which has to be this one.
    pub fn name(&mut self, name: &str) -> anyhow::Result<()> {
        let word = self.word();
        ensure!(word == name, "{word:?} in place of {name:?}");
        Ok(())
    }

    pub fn size(&mut self) -> anyhow::Result<usize> {
        let word = self.word();
        word.parse().context(format_args!("reading {word:?}"))
    }

    pub fn count(&mut self) -> anyhow::Result<u64> {
        let word = self.word();
        word.parse().context(format_args!("reading {word:?}"))
    }

    pub fn byte(&mut self) -> anyhow::Result<u8> {
        let word = self.word();
        word.parse().context(format_args!("reading {word:?}"))
    }

    // The line has no more words.
    pub fn end(&mut self) -> anyhow::Result<()> {
        let word = self.word();
        ensure!(word.is_empty(), "{word:?} past the end of its line");
        Ok(())
    }
}
