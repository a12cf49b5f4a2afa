//! The declarations in force.

ghost use Rattle.std.specs.Prelude.{◌≡◌, ◌||◌, [], ◌∷◌, ◌++◌, ℕ, List, Option, not, length, drop, map, is_some, IfOk, OnOk, if◌then◌else◌};
ghost use Rattle.std.specs.Option.{option_copied};
ghost use Rattle.xml_grammar.specs.Scopes.{Binding, predeclared, same_prefix, bound_to, expanded};
ghost use Rattle.xml_grammar.specs.Nesting.{has_twice};
ghost use Rattle.xmp_xml.specs.Places.{place_at};
ghost use Rattle.xmp_xml.specs.Scopes.{IsIndexed, scoped_in, mark_of};
ghost use Rattle.xmp_xml.specs.Tagging.{same_binding, same_attribute};

use crate::declarations::{Bound, Declared};
use crate::numbers::Numbers;
use crate::places::Places;
use crate::stack::Stack;
use std::alloc::Global;
use std::marker::Model;
use std::mem::replace;
use xml_grammar::RawAttribute;
use xmp_values::{Memory, NameSet, Text};

/// A declaration in force.
#[derive(Drop)]
struct Scoped<'p> {
    prefix: Option<Text<'p>>,
    space: Text<'p>,
    /// It stands for the namespace where names are compared.
    mark: [u8; 8],
    /// Where the prefix is bound farther out.
    outer: Option<usize>,
}

/// The declarations in force; to contracts a list that begins with the innermost. A look-up, a
/// declaration that comes and one that goes each cost the logarithm of their number.
#[derive(Drop)]
pub struct Scope<'p> {
    stack: Stack<Scoped<'p>>,
    places: Places,
    numbers: Numbers,
}

impl<'p> Model for Scope<'p> {
    ghost use Rattle.std.specs.Prelude.{List};
    ghost use Rattle.xml_grammar.specs.Scopes.{Binding};
    ghost use Rattle.xmp_xml.specs.Bindings.{bindings_code};
    ghost use Rattle.xmp_xml.specs.Scopes.{scope_bindings, IsIndexed, AreMarked};

    ghost Value = { List Binding };

    ghost coded = { bindings_code };

    ghost view = { λ s. scope_bindings s.stack };

    ghost invariant = { λ s. IsIndexed s.stack s.places × AreMarked s.stack s.numbers.named };
}

impl<'p> Scope<'p> {
    /// Nothing in force.
    pub fn new(alloc: Global) -> Scope<'p>
        ensures { result ≡ [] }
    {
        Scope {
            stack: Stack::new(alloc),
            places: Places::new(alloc),
            numbers: Numbers::new(alloc),
        }
    }

    /// What is in force where nothing is declared: `xml`.
    #[tactic(auto, unfolding(xml_grammar::specs::Scopes::xml_space))]
    pub fn predeclared(alloc: Global) -> Result<Scope<'p>, Memory>
        ensures { IfOk result (λ s. s ≡ predeclared) }
    {
        Scope::new(alloc).with(
            alloc,
            Some(Text::raw(b"xml".as_slice())),
            Text::raw(b"http://www.w3.org/XML/1998/namespace".as_slice()),
        )
    }

    /// One declaration more.
    fn with(
        self,
        alloc: Global,
        prefix: Option<Text<'p>>,
        space: Text<'p>,
    ) -> Result<Scope<'p>, Memory>
        ensures { IfOk result (λ s. s ≡ record { prefix = prefix.entry; space = space.entry } ∷ self.entry) }
    {
        let Scope {
            mut stack,
            places,
            numbers,
        } = self;
        let outer = places.get(&prefix);
        let places = places.with(alloc, &prefix, Some(stack.len()))?;
        let (numbers, mark) = numbers.with(alloc, space.bytes())?;
        stack.push(Scoped {
            prefix,
            space,
            mark,
            outer,
        })?;
        Ok(Scope {
            stack,
            places,
            numbers,
        })
    }

    /// One declaration less.
    fn without_last(self, alloc: Global) -> Result<Scope<'p>, Memory>
        ensures { IfOk result (λ s. s ≡ drop 1 self.entry) }
    {
        let Scope {
            mut stack,
            places,
            numbers,
        } = self;
        let places = match stack.pop() {
            None => places,
            Some(last) => restored(alloc, places, last)?,
        };
        Ok(Scope {
            stack,
            places,
            numbers,
        })
    }

    /// Without the innermost declarations.
    fn left(self, alloc: Global, count: usize) -> Result<Scope<'p>, Memory>
        ensures { IfOk result (λ s. s ≡ drop count self.entry) }
    {
        let mut scope = self;
        for _ in 0..count {
            scope = scope.without_last(alloc)?;
        }
        Ok(scope)
    }

    /// The innermost declarations go. Where memory runs out none is left.
    pub fn leave(&mut self, alloc: Global, count: usize) -> Result<(), Memory>
        ensures { OnOk result (self.new ≡ drop count self.old) }
    {
        if count > 0 {
            let scope = replace(self, Scope::new(alloc));
            let _none = replace(self, scope.left(alloc, count)?);
        }
        Ok(())
    }

    fn len(&self) -> usize
        ensures { result ≡ length self.now }
    {
        self.stack.len()
    }

    /// Whether one of the declarations inside the outermost binds a prefix.
    fn binds_inside(&self, outermost: usize, prefix: &Option<Text<'_>>) -> bool
        ensures { (inside outer : List Binding) → self.now ≡ inside ++ outer → outermost ≡ length outer → result ≡ is_some (bound_to inside prefix.now) }
    {
        match self.places.get(prefix) {
            Some(place) => place >= outermost,
            None => false,
        }
    }

    /// With those of a tag, and whether they bind a prefix twice.
    fn entered(self, alloc: Global, declared: Declared<'p>) -> Result<(Scope<'p>, bool), Memory>
        ensures scope { IfOk result (λ x. x.0 ≡ declared.entry ++ self.entry) }
        ensures twice { IfOk result (λ x. x.1 ≡ has_twice same_binding declared.entry) }
    {
        let outermost = self.len();
        let mut scope = self;
        let mut twice = false;
        for bound in declared.into_list().into_vec().into_iter().rev() {
            let Bound { prefix, space } = bound;
            twice = scope.binds_inside(outermost, &prefix) || twice;
            scope = scope.with(alloc, prefix, space)?;
        }
        Ok((scope, twice))
    }

    /// The declarations of a tag come, and whether they bind a prefix twice. Where memory runs out
    /// none is left.
    pub fn enter(&mut self, alloc: Global, declared: Declared<'p>) -> Result<bool, Memory>
        ensures scope { OnOk result (self.new ≡ declared.entry ++ self.old) }
        ensures twice { IfOk result (λ twice. twice ≡ has_twice same_binding declared.entry) }
    {
        if declared.is_empty() {
            return Ok(false);
        }
        let around = replace(self, Scope::new(alloc));
        let (inside, twice) = around.entered(alloc, declared)?;
        let _none = replace(self, inside);
        Ok(twice)
    }

    /// What is bound to a prefix.
    pub fn bound_to(&self, prefix: &Option<Text<'_>>) -> Option<&Text<'p>>
        ensures { option_copied result ≡ bound_to self.now prefix.now }
    {
        match scoped_in(&self.stack, &self.places, prefix) {
            Some(scoped) => Some(&scoped.space),
            None => None,
        }
    }

    /// Whether no two attributes have the same expanded name. The time grows as n log n with their
    /// number, and not with the length of the namespaces.
    pub fn are_apart(&self, alloc: Global, plain: &[RawAttribute<'_>]) -> Result<bool, Memory>
        ensures { IfOk result (λ apart. apart ≡ not (has_twice same_attribute (map (expanded self.now) plain.now))) }
    {
        let mut seen = NameSet::new(alloc);
        for attribute in plain {
            let mark = mark_of(&self.stack, &self.places, &attribute.name.prefix);
            if !seen.insert(mark, attribute.name.local.bytes())? {
                return Ok(false);
            }
        }
        Ok(true)
    }
}

/// The places once this declaration, the innermost, is gone.
fn restored(alloc: Global, places: Places, last: Scoped<'_>) -> Result<Places, Memory>
    ensures { IfOk result (λ s. (q : Option (List ℕ)) → place_at s q ≡ (if same_prefix last.entry.prefix q then last.entry.outer else place_at places q)) }
{
    places.with(alloc, &last.prefix, last.outer)
}

/// The innermost declaration of a prefix.
fn scoped_in<'a, 'p>(
    stack: &'a Stack<Scoped<'p>>,
    places: &Places,
    prefix: &Option<Text<'_>>,
) -> Option<&'a Scoped<'p>>
    requires { IsIndexed stack.now places.now }
    ensures { option_copied result ≡ scoped_in stack.now prefix.now }
{
    match places.get(prefix) {
        Some(place) => stack.get(place),
        None => None,
    }
}

/// The mark of an attribute's namespace.
fn mark_of<'a, 'p>(
    stack: &'a Stack<Scoped<'p>>,
    places: &Places,
    prefix: &Option<Text<'_>>,
) -> &'a [u8]
    requires { IsIndexed stack.now places.now }
    ensures { result.now ≡ mark_of stack.now prefix.now }
{
    if prefix.is_none() {
        return b"\0\0\0\0\0\0\0\0".as_slice();
    }
    match scoped_in(stack, places, prefix) {
        Some(scoped) => scoped.mark.as_slice(),
        None => b"\0\0\0\0\0\0\0\0".as_slice(),
    }
}
