//! Texts from the RFCs, and the calls that take memory.
use super::{Ip, Net, contains, print_ip, read_ip, read_net};
use std::alloc::Global;
use std::process::Abort;
use std::test::Fail;

// The print of the address that the text writes.
fn reprinted(alloc: Global, text: &[u8]) -> Result<Vec<u8>, Fail> {
    let ip = read_ip(text).ok_or("no address")?;
    let mut out = Vec::new(alloc);
    print_ip(alloc, ip, &mut out)?;
    Ok(out)
}

fn expect_print(rt: &impl Abort, alloc: Global, text: &[u8], print: &[u8]) -> Result<(), Fail> {
    let out = reprinted(alloc, text)?;
    assert_eq!(rt; out.as_slice(), print);
    Ok(())
}

#[test]
fn addresses(rt: HostRuntime) -> Result<(), Fail> {
    let alloc = rt.alloc();
    expect_print(&rt, alloc, b"::ffff:10.0.0.1", b"10.0.0.1")?;
    expect_print(&rt, alloc, b"0:0:0:0:0:FFFF:a00:1", b"10.0.0.1")?;
    expect_print(&rt, alloc, b"255.0.10.1", b"255.0.10.1")?;
    // RFC 5952 sections 1 and 4.
    expect_print(&rt, alloc, b"2001:db8:0:0:1:0:0:1", b"2001:db8::1:0:0:1")?;
    expect_print(&rt, alloc, b"2001:0db8::0001", b"2001:db8::1")?;
    expect_print(&rt, alloc, b"2001:db8::0:1", b"2001:db8::1")?;
    expect_print(&rt, alloc, b"2001:db8::1:1:1:1:1", b"2001:db8:0:1:1:1:1:1")?;
    expect_print(&rt, alloc, b"2001:0:0:1:0:0:0:1", b"2001:0:0:1::1")?;
    expect_print(
        &rt,
        alloc,
        b"2001:DB8:AAAA::1.2.3.4",
        b"2001:db8:aaaa::102:304",
    )?;
    expect_print(&rt, alloc, b"::", b"::")?;
    expect_print(&rt, alloc, b"::1", b"::1")?;
    assert!(rt; read_ip(b"1::2::3").is_none());
    assert!(rt; read_ip(b"01.2.3.4").is_none());
    assert!(rt; read_ip(b"1.2.3").is_none());
    assert!(rt; read_ip(b"256.2.3.4").is_none());
    assert!(rt; read_ip(b"::1%eth0").is_none());
    assert!(rt; read_ip(b"1:2:3:4:5:6:7:8:9").is_none());
    assert!(rt; read_ip(b"12345::").is_none());
    assert!(rt; read_ip(b" ::1").is_none());
    assert!(rt; read_ip(b"").is_none());
    // A mapped address that a caller made as `V6`.
    let mut out = Vec::new(alloc);
    print_ip(alloc, Ip::V6(0xffff_0a00_0001), &mut out)?;
    assert_eq!(rt; out.as_slice(), b"::ffff:10.0.0.1".as_slice());
    Ok(())
}

#[test]
fn networks(rt: HostRuntime) -> Result<(), Fail> {
    let private: Net = read_net(b"10.0.0.0/8").ok_or("a network")?;
    assert!(rt; contains(&private, Ip::V4(0x0aff_ffff)));
    assert!(rt; !contains(&private, Ip::V4(0x0b00_0000)));
    assert!(rt; !contains(&private, Ip::V6(0x0aff_ffff)));
    let mapped = read_net(b"::ffff:10.0.0.0/104").ok_or("a network")?;
    assert!(rt; mapped == private);
    let long = read_net(b"2001:db8::/032").ok_or("a network")?;
    assert!(rt; contains(&long, read_ip(b"2001:db8:ffff::1").ok_or("an address")?));
    assert!(rt; !contains(&long, read_ip(b"2001:db9::1").ok_or("an address")?));
    let all = read_net(b"::/0").ok_or("a network")?;
    assert!(rt; contains(&all, Ip::V6(1)));
    let one = read_net(b"10.0.0.1").ok_or("a network")?;
    assert_eq!(rt; one.bits, 32);
    assert!(rt; read_net(b"10.0.0.0/33").is_none());
    assert!(rt; read_net(b"10.0.0.0/").is_none());
    assert!(rt; read_net(b"10.0.0.0/+8").is_none());
    assert!(rt; read_net(b"10.0.0.0/8/8").is_none());
    assert!(rt; read_net(b"::/129").is_none());
    assert!(rt; read_net(b"::/99999999999999999999").is_none());
    assert!(rt; read_net(b"::ffff:10.0.0.0/95").is_none());
    Ok(())
}
