use std::env;

/// Returns the value of the variable `DESK_VERSION`, in which `desk` states the program's version and commit. Without
/// it the result is empty.
pub fn name_of(rt: &HostRuntime) -> String {
    match env::var(rt, "DESK_VERSION") {
        Ok(name) => name,
        Err(_) => String::new(rt.alloc()),
    }
}

// A byte that JSON shows as it is.
fn is_plain(byte: u8) -> bool {
    byte.is_ascii_alphanumeric() || matches!(byte, b' ' | b'.' | b',' | b'-' | b'+')
}

/// Returns the name as a page may show it: plain text of 1 to 100 bytes, or else `unknown`.
pub fn shown(name: &str) -> &[u8] {
    let bytes = name.as_bytes();
    if !bytes.is_empty() && bytes.len() <= 100 && bytes.iter().all(|b| is_plain(*b)) {
        bytes
    } else {
        b"unknown"
    }
}
