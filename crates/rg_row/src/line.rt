ghost use Rattle.std.specs.Prelude.{◌≡◌};
ghost use Rattle.rg_row.specs.Fields.{cleaned, without_cr as stripped, is_marked};

/// The line without one last CR, and at offset 0 without one leading byte order mark. It copies nothing.
pub fn clean(offset: u64, line: &[u8]) -> &[u8]
    // One CR at the end goes, and at offset 0 one byte order mark at the front.
    ensures { result.now ≡ cleaned offset line.now }
{
    let line = without_cr(line);
    if offset == 0 && starts_marked(line) {
        &line[3..]
    } else {
        line
    }
}

fn without_cr(line: &[u8]) -> &[u8]
    ensures { result.now ≡ stripped line.now }
{
    let length = line.len();
    if length > 0 && line[length - 1] == b'\r' {
        &line[..length - 1]
    } else {
        line
    }
}

/// Whether the line begins with a byte order mark.
pub fn starts_marked(line: &[u8]) -> bool
    ensures { result ≡ is_marked line.now }
{
    line.len() >= 3 && line[0] == 0xEF && line[1] == 0xBB && line[2] == 0xBF
}
