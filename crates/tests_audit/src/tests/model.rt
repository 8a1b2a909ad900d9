//! A plain judge of the texts of journals: it spells each line again, and its maps are std's. Of calls it knows those
//! that the tests of changed journals make.
use audit::Verdict;
use std::collections::BTreeMap;
use std::panic::Expect;
use std::process::Abort;

/// The value of each key of each handle, and how many keys each live handle has.
#[derive(Drop)]
struct Model {
    values: BTreeMap<(u32, String), i64>,
    sizes: BTreeMap<u32, u32>,
}

/// What is asked, with no key and the value 0 where there is none.
#[derive(Clone, Copy)]
struct Call<'t> {
    verb: &'t str,
    handle: u32,
    key: &'t str,
    value: i64,
}

/// The verdict on the text.
pub(super) fn judged<R: AllocGlobal + Abort>(rt: &R, text: &[u8]) -> Verdict {
    let mut model = Model {
        values: BTreeMap::new(rt.alloc()),
        sizes: BTreeMap::new(rt.alloc()),
    };
    let mut number = 1u32;
    let mut over = false;
    for line in text.split_inclusive(|byte| *byte == b'\n') {
        if over {
            return Verdict::Bad(u64::from(number));
        }
        if is_last(rt, number, line) {
            over = true;
        } else if !model.takes(rt, number, line) {
            return Verdict::Bad(u64::from(number));
        }
        number = number.saturating_add(1);
    }
    if over {
        return Verdict::Legal(u64::from(number.saturating_sub(2)));
    }
    Verdict::Bad(u64::from(number))
}

/// Whether the line of this number is the last one of a journal.
fn is_last<R: AllocGlobal + Abort>(rt: &R, number: u32, line: &[u8]) -> bool {
    let last = format!(in rt.alloc(); "{{\"entries\":{}}}\n", number.saturating_sub(1));
    line == last.expect(rt, "no room").as_bytes()
}

impl Model {
    /// Whether the line is that of the entry of this number. What it asks is then done.
    fn takes<R: AllocGlobal + Abort>(&mut self, rt: &R, number: u32, line: &[u8]) -> bool {
        let Ok(line) = str::from_utf8(line) else {
            return false;
        };
        let Some((quoted_call, seat)) = parts(line) else {
            return false;
        };
        let text = unquoted(rt, quoted_call);
        let (Some(call), Some(seat)) = (call_in(rt, &text), number_in(rt, seat)) else {
            return false;
        };
        let reply = self.reply(rt, &call);
        seat < 64 && is_entry(rt, line, number, seat, &text, &reply)
    }

    /// The reply to the call, which is made.
    fn reply<R: AllocGlobal + Abort>(&mut self, rt: &R, call: &Call<'_>) -> String {
        let alloc = rt.alloc();
        let shown = match (call.verb, self.sizes.get(&call.handle).copied()) {
            _ if call.handle > 1023 => String::from_str(alloc, "refused BadNumber"),
            ("open", None) => {
                self.resize(rt, call.handle, 0);
                String::from_str(alloc, "ok")
            }
            (_, None) => String::from_str(alloc, "refused NoHandle"),
            ("open", Some(_)) => String::from_str(alloc, "refused Taken"),
            ("size", Some(size)) => format!(in alloc; "count {size}"),
            (_, Some(size)) => match self.changed(rt, call, size) {
                Some(old) => format!(in alloc; "some {old}"),
                None => String::from_str(alloc, "none"),
            },
        };
        shown.expect(rt, "no room")
    }

    /// The value of the key before the call, which is made; the handle has `size` keys before it.
    fn changed<R: AllocGlobal + Abort>(
        &mut self,
        rt: &R,
        call: &Call<'_>,
        size: u32,
    ) -> Option<i64> {
        let name = String::from_str(rt.alloc(), call.key).expect(rt, "no key");
        let key = (call.handle, name);
        let old = self.values.get(&key).copied();
        let new = match call.verb {
            "put" => Some(call.value),
            "putifabsent" => Some(old.unwrap_or(call.value)),
            "replace" => old.map(|_| call.value),
            "remove" => None,
            _ => old,
        };
        self.give(rt, key, new);
        let others = size.saturating_sub(u32::from(old.is_some()));
        let keys = others.saturating_add(u32::from(new.is_some()));
        self.resize(rt, call.handle, keys);
        old
    }

    /// The handle has `keys` keys.
    fn resize(&mut self, rt: &impl Abort, handle: u32, keys: u32) {
        let put: Result<_, _> = self.sizes.insert(handle, keys);
        put.expect(rt, "no room");
    }

    /// The key has the value, or none.
    fn give(&mut self, rt: &impl Abort, key: (u32, String), value: Option<i64>) {
        match value {
            Some(value) => {
                let put: Result<_, _> = self.values.insert(key, value);
                put.expect(rt, "no room");
            }
            None => {
                self.values.remove(&key);
            }
        }
    }
}

/// Whether the line is that of an entry with these parts.
fn is_entry<R: AllocGlobal + Abort>(
    rt: &R,
    line: &str,
    number: u32,
    seat: u32,
    call: &str,
    reply: &str,
) -> bool {
    let call = quoted(rt, call);
    let spelled = format!(in rt.alloc();
        "{{\"call\":\"{call}\",\"entry\":{number},\"reply\":\"{reply}\",\"seat\":{seat}}}\n"
    );
    spelled.expect(rt, "no room").as_str() == line
}

/// What stands in a line for the call and for the seat.
fn parts(line: &str) -> Option<(&str, &str)> {
    let (call, rest) = line
        .strip_prefix("{\"call\":\"")?
        .split_once("\",\"entry\":")?;
    let (_, seat) = rest.split_once("\",\"seat\":")?;
    Some((call, seat.strip_suffix("}\n")?))
}

/// The call of the text, if it is one.
fn call_in<'t, R: AllocGlobal + Abort>(rt: &R, text: &'t str) -> Option<Call<'t>> {
    let mut words = text.split(' ');
    let verb = words.next()?;
    let handle = number_in(rt, words.next()?)?;
    let (has_key, has_value) = match verb {
        "open" | "size" => (false, false),
        "get" | "remove" => (true, false),
        "put" | "putifabsent" | "replace" => (true, true),
        _ => return None,
    };
    let key = if has_key { key_in(words.next()?)? } else { "" };
    let value = if has_value {
        value_in(rt, words.next()?)?
    } else {
        0
    };
    if words.next().is_some() {
        return None;
    }
    Some(Call {
        verb,
        handle,
        key,
        value,
    })
}

/// The word, if it is a key.
fn key_in(word: &str) -> Option<&str> {
    let is_key = word.bytes().all(|byte| (0x21..=0x7e).contains(&byte));
    if is_key && !word.is_empty() && word.len() <= 64 {
        Some(word)
    } else {
        None
    }
}

/// The number of a handle or a seat that the text spells, if it does.
fn number_in<R: AllocGlobal + Abort>(rt: &R, text: &str) -> Option<u32> {
    let number = text.parse::<u32>().ok()?;
    let spelled = format!(in rt.alloc(); "{number}").expect(rt, "no room");
    if spelled.as_str() == text {
        Some(number)
    } else {
        None
    }
}

/// The value that the text spells, if it does.
fn value_in<R: AllocGlobal + Abort>(rt: &R, text: &str) -> Option<i64> {
    let value = text.parse::<i64>().ok()?;
    let spelled = format!(in rt.alloc(); "{value}").expect(rt, "no room");
    if spelled.as_str() == text {
        Some(value)
    } else {
        None
    }
}

/// The text without the `\` before each `"` and `\`.
fn unquoted<R: AllocGlobal + Abort>(rt: &R, text: &str) -> String {
    let mut plain = String::new(rt.alloc());
    let mut is_escaped = false;
    for letter in text.chars() {
        is_escaped = letter == '\\' && !is_escaped;
        if !is_escaped {
            plain.push(letter).expect(rt, "no room");
        }
    }
    plain
}

/// The text with a `\` before each `"` and `\`.
fn quoted<R: AllocGlobal + Abort>(rt: &R, text: &str) -> String {
    let mut escaped = String::new(rt.alloc());
    for letter in text.chars() {
        if letter == '"' || letter == '\\' {
            escaped.push('\\').expect(rt, "no room");
        }
        escaped.push(letter).expect(rt, "no room");
    }
    escaped
}
