//! The surface of `opgp_key` and `opgp_sig`.

ghost use Rattle.opgp_octets.specs.Octets.{IsBodySized};

use opgp_key::{
    Attribute, AttributeSub, AttributeView, Key, KeyView, Literal, LiteralView, Material,
    MaterialView, UserId,
};
use opgp_octets::{BodyFault, OutOfMemory, ParseFault, SubLen};
use opgp_sig::{KeyId8, SigView, Signature, Sub, SubMeaning, Subs, ThreeSignature};
use std::alloc::Global;

fn key(alloc: Global, o: &[u8]) -> Result<Key, ParseFault>
    requires { IsBodySized o.now }
{
    Key::parse_body(alloc, o)
}

fn of_key(key: &Key) -> (u8, u32, u8, u64) {
    (
        key.version(),
        key.created(),
        key.algorithm(),
        key.body_len(),
    )
}

fn material(key: &Key) -> MaterialView<'_> {
    key.material()
}

fn algorithm_of<I, B>(material: &Material<I, B>) -> u8 {
    match material {
        Material::Rsa { .. } => 1,
        _ => 0,
    }
}

fn written_key(key: &Key, out: &mut Vec<u8>) -> Result<(), OutOfMemory> {
    key.write_body(out)
}

fn same_key(alloc: Global, key: &Key) -> Result<Key, OutOfMemory> {
    key.copy(alloc)
}

fn key_lent(key: &Key) -> KeyView<'_> {
    key.view()
}

fn key_view(o: &[u8]) -> Result<KeyView<'_>, BodyFault>
    requires { IsBodySized o.now }
{
    KeyView::parse_body(o)
}

fn user_id(alloc: Global, o: &[u8]) -> Result<UserId, ParseFault>
    requires { IsBodySized o.now }
{
    UserId::parse_body(alloc, o)
}

fn of_user_id<'a>(id: &'a UserId, out: &mut Vec<u8>) -> Result<u64, OutOfMemory> {
    id.write_body(out)?;
    Ok(id.body_len())
}

fn attribute(alloc: Global, o: &[u8]) -> Result<Attribute, ParseFault>
    requires { IsBodySized o.now }
{
    Attribute::parse_body(alloc, o)
}

fn first_of_attribute(attribute: &Attribute) -> Option<AttributeSub<'_>> {
    attribute.subpackets().next()
}

fn first_of_view<'a>(attribute: AttributeView<'a>) -> Option<AttributeSub<'a>> {
    attribute.subpackets().next()
}

fn of_attribute_sub<'a>(sub: AttributeSub<'a>) -> (SubLen, u8, &'a [u8]) {
    (sub.len(), sub.kind(), sub.octets())
}

fn literal(alloc: Global, o: &[u8]) -> Result<Literal, ParseFault>
    requires { IsBodySized o.now }
{
    Literal::parse_body(alloc, o)
}

fn of_literal(literal: &Literal) -> (u8, &[u8], u32, &[u8]) {
    (
        literal.format(),
        literal.name(),
        literal.date(),
        literal.content(),
    )
}

fn literal_fault(o: &[u8]) -> Option<BodyFault>
    requires { IsBodySized o.now }
{
    Literal::check_body(o)
}

fn literal_view(o: &[u8]) -> Result<LiteralView<'_>, BodyFault>
    requires { IsBodySized o.now }
{
    LiteralView::parse_body(o)
}

fn signature(alloc: Global, o: &[u8]) -> Result<Signature, ParseFault>
    requires { IsBodySized o.now }
{
    Signature::parse_body(alloc, o)
}

fn signature_view(o: &[u8]) -> Result<SigView<'_>, BodyFault>
    requires { IsBodySized o.now }
{
    SigView::parse_body(o)
}

fn version_of(signature: &Signature) -> u8 {
    match signature {
        Signature::Three(_) => 3,
        Signature::Four(_) => 4,
        Signature::Six(_) => 6,
        Signature::Other(_) => 0,
    }
}

fn of_signature(signature: &Signature, out: &mut Vec<u8>) -> Result<u64, OutOfMemory> {
    signature.write_body(out)?;
    Ok(signature.body_len())
}

fn of_three(three: &ThreeSignature) -> (u8, u32, KeyId8, u8, u8, [u8; 2]) {
    (
        three.kind(),
        three.created(),
        three.issuer(),
        three.algorithm(),
        three.hash(),
        three.left(),
    )
}

fn subpackets<'a>(view: SigView<'a>) -> Option<Subs<'a>> {
    match view {
        SigView::Four(view) => Some(view.hashed()),
        SigView::Six(view) => Some(view.unhashed()),
        SigView::Three(_) | SigView::Other(_) => None,
    }
}

fn first_of_area<'a>(area: Subs<'a>) -> Option<Sub<'a>> {
    let mut area = area;
    area.next()
}

fn of_sub<'a>(sub: Sub<'a>) -> (SubLen, bool, u8, &'a [u8], SubMeaning<'a>) {
    (
        sub.len(),
        sub.critical(),
        sub.kind(),
        sub.octets(),
        sub.meaning(),
    )
}

fn kind_of(meaning: SubMeaning<'_>) -> u8 {
    match meaning {
        SubMeaning::Created(_) => 2,
        SubMeaning::Unfit => 254,
        SubMeaning::Unknown => 255,
        _ => 0,
    }
}
