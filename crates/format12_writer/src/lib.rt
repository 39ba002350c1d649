// Writes a format 12 subtable: its header, and behind it the groups, one run of the listed pairs each.
#![tactic(auto)]

ghost use Rattle.std.specs.Prelude.{◌≡◌, ◌+◌, ◌≤◌, ◌*◌, length, [], ◌∷◌};
ghost use Rattle.std.proofs.lemmas.List.Edits.{sets};
ghost use Rattle.format12.specs.Format12.{header12, groups, fields, format12, Columns, GroupsRoom};
ghost use Rattle.laws.specs.Lists.{pairs};
ghost use Rattle.number.specs.Row.{encs};

use format12::Group;

pub fn write_header(out: &mut [u8], at: usize, language: u32, groups: usize)
    requires { (at + 16 ≤ length out.old) × (groups ≤ 65535) }
    ensures { out.new ≡ sets out.old at (header12 12 language groups) }
{
    number_writer::put_u16(out, at, 12);
    number_writer::put_u16(out, at + 2, 0);
    number_writer::put_u32(out, at + 4, (16 + 12 * groups) as u32);
    number_writer::put_u32(out, at + 8, language);
    number_writer::put_u32(out, at + 12, groups as u32);
}

fn put_group(out: &mut [u8], at: usize, group: Group)
    requires { at + 12 ≤ length out.old }
    ensures { out.new ≡ sets out.old at (encs 4 (fields (group ∷ []))) }
{
    number_writer::put_u32(out, at, group.start);
    number_writer::put_u32(out, at + 4, group.end);
    number_writer::put_u32(out, at + 8, u32::from(group.glyph));
}

// Writes the groups that the pairs make.
fn write_groups(out: &mut [u8], at: usize, codes: &[u32], glyphs: &[u16])
    requires columns { Columns codes.now glyphs.now }
    requires room { at + 12 * length (groups (pairs codes.now glyphs.now)) ≤ length out.old }
    ensures { out.new ≡ sets out.old at (encs 4 (fields (groups (pairs codes.now glyphs.now)))) }
{
    let mut to = at;
    let mut i = 0;
    // A `for` cannot jump: a run is passed over at once.
    while i < codes.len() {
        let start = codes[i];
        let glyph = glyphs[i];
        i = lists_runs::run_end(codes, glyphs, i);
        let end = codes[i - 1];
        put_group(out, to, Group { start, end, glyph });
        to += 12;
    }
}

// Writes the subtable of the pairs, in as many groups as format12_size found.
pub fn write_format12(
    out: &mut [u8],
    at: usize,
    language: u32,
    codes: &[u32],
    glyphs: &[u16],
    groups: usize,
)
    requires columns { Columns codes.now glyphs.now }
    requires groups_room { GroupsRoom (pairs codes.now glyphs.now) groups at (length out.old) }
    ensures { out.new ≡ sets out.old at (format12 language (pairs codes.now glyphs.now)) }
{
    write_header(out, at, language, groups);
    write_groups(out, at + 16, codes, glyphs);
}
