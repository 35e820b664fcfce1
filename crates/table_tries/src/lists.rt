//! Cases of lists, of values that many hold, and of maps whose keys are texts.
use column_types::{List, NoMemory, Shared, Text};
use journal_text::push_count;
use std::alloc::Global;
use std::collections::{BTreeMap, HashMap};

/// The numbers between spaces.
fn numbers_of(alloc: Global, text: &str) -> Result<List<u32>, NoMemory> {
    let mut numbers = List::new(alloc);
    for word in text.split(' ') {
        if let Ok(number) = word.parse::<u32>() {
            numbers.push(number)?;
        }
    }
    Ok(numbers)
}

/// Appends numbers with spaces between them.
fn push_numbers(out: &mut Text, numbers: &[u32]) -> Result<(), NoMemory> {
    for (place, number) in numbers.iter().enumerate() {
        out.push(if place == 0 { "" } else { " " })?;
        push_count(out, u64::from(*number))?;
    }
    Ok(())
}

/// `list A|B|C|D|E`: the numbers A are copied, B appended as a slice, C one by one, and D in room taken before.
pub fn list(alloc: Global, rest: &str) -> Result<Text, NoMemory> {
    let mut fields = rest.split('|');
    let first = numbers_of(alloc, fields.next().unwrap_or(""))?;
    let mut list = List::from_slice(alloc, first.as_slice())?;
    extend(alloc, &mut list, fields.next().unwrap_or(""))?;
    push_each(alloc, &mut list, fields.next().unwrap_or(""))?;
    push_reserved(alloc, &mut list, fields.next().unwrap_or(""))?;
    let mut out = Text::new(alloc);
    push_list(&mut out, &list)?;
    put(alloc, &mut out, list, fields.next().unwrap_or(""))?;
    Ok(out)
}

fn extend(alloc: Global, list: &mut List<u32>, text: &str) -> Result<(), NoMemory> {
    let numbers = numbers_of(alloc, text)?;
    list.extend_from_slice(numbers.as_slice())
}

fn push_each(alloc: Global, list: &mut List<u32>, text: &str) -> Result<(), NoMemory> {
    for number in numbers_of(alloc, text)?.as_slice() {
        list.push(*number)?;
    }
    Ok(())
}

/// Appends two numbers in room that is taken before.
fn push_reserved(alloc: Global, list: &mut List<u32>, text: &str) -> Result<(), NoMemory> {
    if let &[first, second] = numbers_of(alloc, text)?.as_slice() {
        let room = list.with_room(2)?;
        room.push_reserved(first);
        room.push_reserved(second);
    }
    Ok(())
}

/// Appends a list, whether its copy is the same, and what it has past its end.
fn push_list(out: &mut Text, list: &List<u32>) -> Result<(), NoMemory> {
    push_numbers(out, list.as_slice())?;
    let copy = list.clone()?;
    out.push(if copy == *list {
        "|copy the same|"
    } else {
        "|copy differs|"
    })?;
    out.push(if list.get(list.len()).is_none() {
        "none at "
    } else {
        "some at "
    })?;
    push_count(out, list.len() as u64)?;
    out.push("|")
}

/// Puts a number in a spare place of the list, and appends what it is then.
fn put(alloc: Global, out: &mut Text, list: List<u32>, text: &str) -> Result<(), NoMemory> {
    let mut roomy = list.into_roomy();
    if let &[number] = numbers_of(alloc, text)?.as_slice() {
        roomy.reserve(1)?;
        roomy.put(number);
    }
    push_numbers(out, roomy.into_list().into_vec().as_slice())
}

/// `shared NUMBERS`.
pub fn shared(alloc: Global, rest: &str) -> Result<Text, NoMemory> {
    let first = Shared::new(alloc, numbers_of(alloc, rest)?)?;
    let mut out = Text::new(alloc);
    push_numbers(&mut out, first.share()?.get().as_slice())?;
    out.push("|")?;
    push_count(&mut out, first.clone()?.get().len() as u64)?;
    Ok(out)
}

/// The same text, made of its characters.
fn respelled(alloc: Global, text: &str) -> Result<Text, NoMemory> {
    let mut spelled = Text::new(alloc);
    for sign in text.chars() {
        spelled.push_char(sign)?;
    }
    Ok(spelled)
}

/// `keys TEXT|TEXT NUMBER..`.
pub fn keys(alloc: Global, rest: &str) -> Result<Text, NoMemory> {
    let (sought, pairs) = rest.split_once('|').unwrap_or((rest, ""));
    let sought = respelled(alloc, sought)?;
    let mut out = Text::from_str(alloc, "hashed ")?;
    push_found(&mut out, hashed(alloc, pairs, &sought)?)?;
    out.push(", ordered ")?;
    push_found(&mut out, ordered(alloc, pairs, &sought)?)?;
    Ok(out)
}

/// What a hash map holds for a text.
fn hashed(alloc: Global, pairs: &str, sought: &Text) -> Result<Option<u32>, NoMemory> {
    let mut map = HashMap::new(alloc);
    for pair in pairs.split('|') {
        let (text, number) = pair.split_once(' ').unwrap_or((pair, ""));
        map.insert(respelled(alloc, text)?, number.parse::<u32>().unwrap_or(0))?;
    }
    Ok(map.get(sought).copied())
}

/// What an ordered map holds for a text.
fn ordered(alloc: Global, pairs: &str, sought: &Text) -> Result<Option<u32>, NoMemory> {
    let mut map = BTreeMap::new(alloc);
    for pair in pairs.split('|') {
        let (text, number) = pair.split_once(' ').unwrap_or((pair, ""));
        map.insert(respelled(alloc, text)?, number.parse::<u32>().unwrap_or(0))?;
    }
    Ok(map.get(sought).copied())
}

fn push_found(out: &mut Text, found: Option<u32>) -> Result<(), NoMemory> {
    match found {
        Some(number) => push_count(out, u64::from(number)),
        None => out.push("none"),
    }
}
