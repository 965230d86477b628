/// Builds the body of an attribute's `decode` or `encode` from its list of fields. An entry `name: Type at OFFSET` is a
/// field of whole bytes. After `bits`, an entry `name: Type at OFFSET, SHIFT, WIDTH` is a field of bits of one byte.
macro_rules! fields {
    (decode $bytes:ident, $attribute:ident { $($name:ident: $kind:ident at $at:literal),* $(,)? }
            $(bits { $($part:ident: $of:ident at $byte:literal, $shift:literal, $width:literal),* $(,)? })?) => {
        $attribute {
            $($name: field_type::read::<$kind, $at>($bytes),)*
            $($($part: $of::from_bits(bits::<$byte, $shift, $width>($bytes)),)*)?
        }
    };
    (encode $value:ident, $attribute:ident { $($name:ident: $kind:ident at $at:literal),* $(,)? }
            $(bits { $($part:ident: $of:ident at $byte:literal, $shift:literal, $width:literal),* $(,)? })?) => {{
        let mut bytes = [0u8; 64];
        $(field_type::write::<$kind, $at>($value.$name, &mut bytes);)*
        $($(with_bits::<$byte, $shift, $width>(&mut bytes, $value.$part.number());)*)?
        bytes
    }};
}

pub(crate) use fields;
