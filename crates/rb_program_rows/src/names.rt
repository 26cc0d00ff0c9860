//! Named texts.

use crate::answer_text::AnswerText;
use std::alloc::Global;
use std::collections::BTreeMap;

/// Texts by their names.
#[derive(Drop)]
pub(crate) struct Names {
    texts: BTreeMap<String, String>,
}

impl Names {
    /// No names.
    pub(crate) fn new(alloc: Global) -> Names {
        Names {
            texts: BTreeMap::new(alloc),
        }
    }

    /// Defines the text of a line `name WORD TEXT` or `repeat WORD COUNT TEXT`. Returns false if the line is neither.
    /// The answer is incomplete if there is no memory for the text.
    pub(crate) fn keep(&mut self, alloc: Global, line: &str, out: &mut AnswerText) -> bool {
        match kept(line) {
            Some((name, count, text)) => {
                let text = self.in_place(alloc, text);
                self.define(alloc, name, &repeated(alloc, &text, count), out);
                true
            }
            None => false,
        }
    }

    // Defines the text of a name.
    fn define(&mut self, alloc: Global, name: &str, text: &AnswerText, out: &mut AnswerText) {
        let kept = match (
            String::from_str(alloc, name),
            String::from_str(alloc, text.as_str()),
        ) {
            (Ok(name), Ok(text)) => self.texts.insert(name, text).is_ok(),
            _ => false,
        };
        if !kept || !text.is_complete() {
            out.lack();
        }
    }

    /// Returns a line with each name in braces replaced by its text. An undefined name is left as it is.
    pub(crate) fn in_place(&self, alloc: Global, line: &str) -> AnswerText {
        let mut text = AnswerText::new(alloc);
        let mut is_first = true;
        for part in line.split('{') {
            if is_first {
                text.push(part);
            } else {
                self.push_named(part, &mut text);
            }
            is_first = false;
        }
        text
    }

    // Appends what follows a brace, with its name replaced.
    fn push_named(&self, part: &str, text: &mut AnswerText) {
        match part.split_once('}') {
            Some((name, rest)) => {
                self.push_name(name, text);
                text.push(rest);
            }
            None => {
                text.push("{");
                text.push(part);
            }
        }
    }

    // Appends the text of a name.
    fn push_name(&self, name: &str, text: &mut AnswerText) {
        match self.texts.get(name) {
            Some(named) => text.push(named.as_str()),
            None => {
                text.push("{");
                text.push(name);
                text.push("}");
            }
        }
    }
}

// Returns a text, repeated this often.
fn repeated(alloc: Global, text: &AnswerText, count: u32) -> AnswerText {
    let mut all = AnswerText::new(alloc);
    for _ in 0..count {
        all.add(text);
    }
    all
}

// Returns the name that a line defines, how often its text is repeated, and the text.
fn kept(line: &str) -> Option<(&str, u32, &str)> {
    let (word, rest) = line.split_once(' ')?;
    let (name, text) = rest.split_once(' ')?;
    match word {
        "name" => Some((name, 1, text)),
        "repeat" => {
            let (count, text) = text.split_once(' ')?;
            Some((name, count.parse::<u32>().ok()?, text))
        }
        _ => None,
    }
}
