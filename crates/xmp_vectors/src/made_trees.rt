//! Trees that are made from a number: each number gives the same tree.
use std::alloc::Global;
use xmp_tree::{Kind, Member, Members, Shape, Tree, Value};
use xmp_values::{Memory, Name, Sequence, Text};

/// Texts with the characters that are written in a form of their own, or seldom.
const TEXTS: [&str; 12] = [
    "",
    "x",
    "a\rb\nc\td",
    "]]>",
    "&amp; <b> \"c\" 'd'",
    "\u{FFFD}\u{1F600}\u{7F}",
    " \u{A0} ",
    "\r\n\r",
    "<![CDATA[x]]>",
    "&#xD;",
    "\u{10FFFD}\u{E000}",
    "en",
];

/// Namespaces: known ones, one that needs an escape, and others.
const SPACES: [&str; 5] = [
    "http://purl.org/dc/elements/1.1/",
    "http://ns.adobe.com/xap/1.0/",
    "urn:a",
    "urn:a&\"<b>",
    "adobe:ns:meta/",
];

/// Local parts, in several scripts.
const LOCALS: [&str; 6] = ["a", "b-1", "format", "Überschrift", "題", "_.x"];

/// Numbers that follow from one another (a linear congruence).
#[derive(Drop)]
pub struct Numbers {
    state: u32,
}

impl Numbers {
    pub fn from(seed: u32) -> Numbers {
        Numbers { state: seed }
    }

    /// A number below this bound, which isn't 0.
    pub fn below(&mut self, bound: u32) -> usize {
        self.state = self
            .state
            .wrapping_mul(1_664_525)
            .wrapping_add(1_013_904_223);
        match (self.state >> 8).checked_rem(bound) {
            Some(number) => number as usize,
            None => 0,
        }
    }
}

fn pick(list: &[&'static str], number: usize) -> Text<'static> {
    Text::raw(list.get(number).copied().unwrap_or("").as_bytes())
}

fn name(space: usize, local: usize) -> Name<'static> {
    Name {
        space: pick(&SPACES, space),
        local: pick(&LOCALS, local),
    }
}

fn plain(alloc: Global, shape: Shape<'static>) -> Value<'static> {
    Value {
        shape,
        quals: Members::new(alloc),
    }
}

fn leaf(alloc: Global, numbers: &mut Numbers) -> Value<'static> {
    let text = pick(&TEXTS, numbers.below(12));
    if numbers.below(3) == 0 {
        plain(alloc, Shape::Uri(text))
    } else {
        plain(alloc, Shape::Simple(text))
    }
}

/// The last values, at most three.
fn last(
    values: &mut Vec<Value<'static>>,
    numbers: &mut Numbers,
) -> Result<Vec<Value<'static>>, Memory> {
    let at = values.len().saturating_sub(numbers.below(4));
    Ok(values.split_off(at)?)
}

fn array(alloc: Global, items: Vec<Value<'static>>, kind: usize) -> Value<'static> {
    let kind = match kind {
        0 => Kind::Bag,
        1 => Kind::Seq,
        _ => Kind::Alt,
    };
    plain(alloc, Shape::Array(kind, Sequence::from_vec(items)))
}

/// A value each under names of one namespace that differ.
fn named(
    alloc: Global,
    values: Vec<Value<'static>>,
    space: usize,
) -> Result<Members<'static>, Memory> {
    let mut members = Members::new(alloc);
    for value in values {
        let name = name(space, members.len());
        members.push(Member { name, value })?;
    }
    Ok(members)
}

/// The language as a qualifier, and another one.
fn qualified(
    alloc: Global,
    value: Value<'static>,
    numbers: &mut Numbers,
) -> Result<Value<'static>, Memory> {
    let mut quals = Members::new(alloc);
    if numbers.below(2) == 0 {
        let name = Name {
            space: Text::raw(b"http://www.w3.org/XML/1998/namespace"),
            local: Text::raw(b"lang"),
        };
        let value = plain(alloc, Shape::Simple(pick(&TEXTS, numbers.below(12))));
        quals.push(Member { name, value })?;
    }
    if numbers.below(2) == 0 {
        let name = name(numbers.below(5), numbers.below(6));
        let value = leaf(alloc, numbers);
        quals.push(Member { name, value })?;
    }
    let Value { shape, .. } = value;
    Ok(Value { shape, quals })
}

/// One value more, or the last ones put into one.
fn step(
    alloc: Global,
    values: &mut Vec<Value<'static>>,
    numbers: &mut Numbers,
) -> Result<(), Memory> {
    let value = match numbers.below(5) {
        0 => {
            let items = last(values, numbers)?;
            array(alloc, items, numbers.below(3))
        }
        1 => {
            let fields = last(values, numbers)?;
            plain(
                alloc,
                Shape::Struct(named(alloc, fields, numbers.below(5))?),
            )
        }
        2 => match values.pop() {
            Some(value) => qualified(alloc, value, numbers)?,
            None => leaf(alloc, numbers),
        },
        _ => leaf(alloc, numbers),
    };
    values.push(value)?;
    Ok(())
}

/// The tree of a number, if it is well-formed.
pub fn made_tree(alloc: Global, numbers: &mut Numbers) -> Result<Option<Tree<'static>>, Memory> {
    let mut values = Vec::new(alloc);
    for _ in 0..10 {
        step(alloc, &mut values, numbers)?;
    }
    let mut props = Members::new(alloc);
    for value in values {
        let count = props.len();
        let space = count.checked_rem(5).unwrap_or(0);
        let local = count.checked_div(5).unwrap_or(0);
        props.push(Member {
            name: name(space, local),
            value,
        })?;
    }
    Tree::checked(alloc, pick(&TEXTS, numbers.below(12)), props)
}
