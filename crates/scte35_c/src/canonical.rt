// The tests of the canonical form: of all bytes from the offset on.
ghost use Rattle.std.specs.Prelude.{◌≡◌, drop};
ghost use Rattle.canonical_form.specs.Descriptor.{canonical_descriptor, canonical_loop};
ghost use Rattle.canonical_form.specs.Section.{canonical_section};

#[unsafe(no_mangle)]
pub extern "C" fn scte35_is_canonical_section(section: &[u8], at: usize) -> bool
    ensures { result ≡ canonical_section (drop at section.now) }
{
    scte35::canonical::scte35_is_canonical_section(section, at)
}

#[unsafe(no_mangle)]
pub extern "C" fn scte35_is_canonical_loop(descriptors: &[u8], at: usize) -> bool
    ensures { result ≡ canonical_loop (drop at descriptors.now) }
{
    scte35::canonical::scte35_is_canonical_loop(descriptors, at)
}

#[unsafe(no_mangle)]
pub extern "C" fn scte35_is_canonical_descriptor(descriptor: &[u8], at: usize) -> bool
    ensures { result ≡ canonical_descriptor (drop at descriptor.now) }
{
    scte35::canonical::scte35_is_canonical_descriptor(descriptor, at)
}
