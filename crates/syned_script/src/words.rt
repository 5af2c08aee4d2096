//! The annotation words of a script.
ghost use Rattle.std.specs.Prelude.{◌≡◌, suc, [], ◌∷◌, ◌++◌, length, map, IfOk, IfErr, OnOk, IfSome};
ghost use Rattle.syned_script.specs.State.{with_word, annotation_of};
ghost use Rattle.syned_script.specs.WordValue.{word_of, with_number};
ghost use Rattle.syned_script.specs.inner.Numbered.{number_from};
ghost use Rattle.syned_script.specs.declared.stop.Stop.TheVariants.{Memory};

use crate::stop::Stop;
use script_lines::Name;
use std::alloc::Global;
use std::collections::HashMap;
use std::marker::Model;
use syntax_editor::{Annotations, SyntaxAnnotation};

/// A word, and the annotation that it stands for.
#[derive(Drop)]
pub struct Word {
    pub text: String,
    pub annotation: SyntaxAnnotation,
}

/// The words that were used, each with an annotation of its own.
pub struct Words {
    annotations: HashMap<String, SyntaxAnnotation>,
    in_order: Vec<Word>,
}

// One call lets a value go, not one for each field.
impl Drop for Words {
    fn drop(self) {
        let Words {
            annotations: _,
            in_order: _,
        } = self;
    }
}

impl Model for Words {
    ghost use Rattle.std.specs.Prelude.{ℕ, List};
    ghost use Rattle.syned_script.specs.WordValue.{texts_of};
    ghost use Rattle.syned_script.specs.inner.Numbered.{AreNumbered};

    ghost Value = { List (List ℕ) };

    ghost view = { λ a. texts_of a.in_order.items };

    ghost invariant = { λ a. AreNumbered a.annotations a.in_order.items };
}

impl Words {
    pub(crate) fn new(alloc: Global) -> Words
        ensures { result ≡ [] }
    {
        Words {
            annotations: HashMap::new(alloc),
            in_order: Vec::new(alloc),
        }
    }

    /// The annotation of a word; its first use draws the next one.
    pub(crate) fn annotation(
        &mut self,
        alloc: Global,
        word: Name<'_>,
    ) -> Result<SyntaxAnnotation, Stop>
        ensures words { OnOk result (self.new ≡ with_word word.entry.text.now self.old) }
        ensures annotation { IfOk result (λ a. a ≡ annotation_of self.new word.entry.text.now) }
        ensures memory { IfErr result (λ stop. stop ≡ Memory) }
    {
        match self.get(word) {
            Some(annotation) => Ok(annotation),
            None => self.draw(alloc, word),
        }
    }

    // The annotation of a word that was used before.
    fn get(&self, word: Name<'_>) -> Option<SyntaxAnnotation>
        ensures { result ≡ number_from 1 self.now word.entry.text.now }
    {
        self.annotations.get(word.as_str()).copied()
    }

    // The next annotation, for a word that was not used before.
    fn draw(&mut self, alloc: Global, word: Name<'_>) -> Result<SyntaxAnnotation, Stop>
        requires { number_from 1 self.old word.text.now ≡ None }
        ensures words { OnOk result (self.new ≡ self.old ++ word.entry.text.now ∷ []) }
        ensures annotation { IfOk result (λ a. a ≡ annotation_of self.new word.entry.text.now) }
        ensures memory { IfErr result (λ stop. stop ≡ Memory) }
    {
        let annotation = annotation_after(self.in_order.as_slice().len()).ok_or(Stop::Memory)?;
        self.in_order.reserve(1)?;
        let text = String::from_str(alloc, word.as_str())?;
        let key = text.clone()?;
        self.annotations.insert(key, annotation)?;
        self.in_order.push(Word { text, annotation }).unwrap();
        Ok(annotation)
    }

    /// The words, by their first use, with annotations that count from 1.
    pub fn in_order(&self) -> &[Word]
        ensures { map word_of result.now ≡ map (with_number self.now) self.now }
    {
        self.in_order.as_slice()
    }
}

// The annotation after so many. No script has as many words as there are annotations.
fn annotation_after(count: usize) -> Option<SyntaxAnnotation>
    ensures { IfSome result (λ a. a ≡ suc count) }
{
    let number = u32::try_from(count.checked_add(1)?).ok()?;
    Annotations::new(number).next()
}
