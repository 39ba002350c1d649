// No code: looking a code point up in the segments and the glyph array of a cutting gives its listed glyph; a written format 4 subtable is read
// back as itself, and a lookup in it gives the listed glyph.
#![tactic(auto)]
