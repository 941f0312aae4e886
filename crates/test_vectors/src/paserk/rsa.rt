//! Key pairs of version 1 as text. The forms of the keys are those that OpenSSL writes, and the ids are computed from the texts by Python's hashlib.

use super::refusals::expect_fault;
use crate::expect::{expect_bytes, expect_text};
use crate::hexadecimal::bytes_of;
use crate::schemes::rsa::{PRIVATE, PUBLIC};
use rusty_paseto_parts::{
    PasetoAsymmetricPrivateKey, PasetoAsymmetricPublicKey, PrivateKey, Public, PublicKey, V1,
};
use rusty_paseto_paserk::{
    PaserkError, rsa_private_key_from_paserk, rsa_public_id, rsa_public_key_from_paserk,
    rsa_public_to_paserk, rsa_secret_id, rsa_secret_to_paserk,
};
use std::process::Abort;

// The private key, as `openssl rsa -traditional -outform DER` writes it.
pub(crate) const SECRET: &str = concat!(
    "k1.secret.MIIEpAIBAAKCAQEAp3G0w6iGCjGm6mKj653SGgr-8GW8--MQoqUcrB0xWgbef8gaSC36ppAtZjnQK6zD7VtROW5_3q",
    "x4UQMLPZSV2QduEBvAFQD4p1Gj_ir3nWPHDrFh7WTj7Zg4DXi0aRVMEENHEcgcuFvSfjiScIEcMh1E3bFRAyyhcTXKVz5Z0oGfm-",
    "byePnkIiYQinIAoo6M1m-1gim4PUEeKcppxieOFxORQYwkZovn53hPluKnoWUaPjwteFLKGusMnaScJm54VI_g5eBKAI_MCB-_7n",
    "EjDOHgkVKUbzQnyK5T-8eSWAegTk5x8TGvEg6VRJ4FHK6fAD37m9NvR5ixoaHaT4l8JQIDAQABAoIBADWGaf-_f7WDgLVc-cRIK1",
    "DK4grLotksEPXE7QDxxgRevMJBH3GiTQTwgqqyYWKMtAbMUY8XzQVLwZw36mBxfmMldl_s1v5_1Hx74v3NE2E683c1abXeseOR7J",
    "0V0CnlNm7earn6639dTtCtWdZf1zkH1Ss-0sQ-gI71YGx6EHFzHMU5lVKuYHeOcAk1Nwvn2LCSWODfdSz_5aILmMK3ayIxOqVj9c",
    "3myCyF4nBN1iR52C6kTzxMvemKihPIWxwJV_DdZk74aQvW3VwmA0ZvY5dV7S8y0_sfEQvfIyTv2p-BxbyDDEWVh1oEFcuiy2uPmW",
    "mge4iXbem8cRHJBjFtcBMCgYEA0odDOibbVQXEzb_7k1nWISoP_PMH4qBpO1O59SRWR3Te01Q9eHdbvnM2zCcs4AZJmdK-9Rkl15",
    "wIOBZZn3GKRDO1cRhK2MclbeH_yd9lRqpIuP5p7BJuSuginqqa994CMv39LAt5iVMnnvlsQioDMlKOLxNoJt2oW94-YX0jd3cCgY",
    "EAy5wwrO9LfuoMJ5Awaouba_SUo8CKAIXy0SkuVFTIAkx90ZM3D3qgv6tOQMsFBrMHKOUxZb-4B_f2BrF1V62-TdL78QR5AzfQ11",
    "InkaeofqfzrdgcGFC2GN19EASimQF_e2yYzGyXpkYPjXs0gqL1kBB932yD9fhy2HOu8S0GiEMCgYEAlTKw7QxOkjG1aI7vDl0zSG",
    "uTyxK8-tnt2dKbTeTDlH55z9C6g54rEYx7QDFfNyCdlnrpQ6_fxq5YkM8eEsYXVABFTPIHURvJJddtPDaqgmr5gMkkbd4d9c4Pgt",
    "yrWJAohNTFUCqNpkmdIafoFffKLiadhzU8sZaS0xBsqxBRSz8CgYBGVOeDdQ1RA6u7JtVymFLRkaSeg-2njJ15no4AV2DXWnDDqe",
    "SFFkjcrGHVg8tyqvi4KaNMkFMTfZWgbkAoTz3DSDP65x6d-_PJzPkaGR3c0kscK-BYjdi48hk3JUK9M4VDrxmA06n2p5DLwFk9Hu",
    "lQIEI6oRNcLbwOBLfTW0g8XQKBgQCdPuAoT4BpYtMYaclLsL7zq21Bv5ZAoM2qo7-CSF6_LPmLnScE2YslTAaZqEkoe9iYIAeBQ3",
    "wAzPALVotN88WyBBnuZcAjoAp7SdD69r3cyNVDd6ggZHq7IRqsah3GWN65TJLXvrhDwzyGZ4Jx2kPpUfdese4xyFNIdPkONJ2TRA",
);

// The same as a PrivateKeyInfo, as `openssl pkcs8 -topk8 -nocrypt -outform DER` writes it.
pub(crate) const INFO: &str = concat!(
    "k1.secret.MIIEvgIBADANBgkqhkiG9w0BAQEFAASCBKgwggSkAgEAAoIBAQCncbTDqIYKMabqYqPrndIaCv7wZbz74xCipRysHT",
    "FaBt5_yBpILfqmkC1mOdArrMPtW1E5bn_erHhRAws9lJXZB24QG8AVAPinUaP-KvedY8cOsWHtZOPtmDgNeLRpFUwQQ0cRyBy4W9",
    "J-OJJwgRwyHUTdsVEDLKFxNcpXPlnSgZ-b5vJ4-eQiJhCKcgCijozWb7WCKbg9QR4pymnGJ44XE5FBjCRmi-fneE-W4qehZRo-PC",
    "14Usoa6wydpJwmbnhUj-Dl4EoAj8wIH7_ucSMM4eCRUpRvNCfIrlP7x5JYB6BOTnHxMa8SDpVEngUcrp8APfub029HmLGhodpPiX",
    "wlAgMBAAECggEANYZp_79_tYOAtVz5xEgrUMriCsui2SwQ9cTtAPHGBF68wkEfcaJNBPCCqrJhYoy0BsxRjxfNBUvBnDfqYHF-Yy",
    "V2X-zW_n_UfHvi_c0TYTrzdzVptd6x45HsnRXQKeU2bt5qufrrf11O0K1Z1l_XOQfVKz7SxD6AjvVgbHoQcXMcxTmVUq5gd45wCT",
    "U3C-fYsJJY4N91LP_loguYwrdrIjE6pWP1zebILIXicE3WJHnYLqRPPEy96YqKE8hbHAlX8N1mTvhpC9bdXCYDRm9jl1XtLzLT-x",
    "8RC98jJO_an4HFvIMMRZWHWgQVy6LLa4-ZaaB7iJdt6bxxEckGMW1wEwKBgQDSh0M6JttVBcTNv_uTWdYhKg_88wfioGk7U7n1JF",
    "ZHdN7TVD14d1u-czbMJyzgBkmZ0r71GSXXnAg4FlmfcYpEM7VxGErYxyVt4f_J32VGqki4_mnsEm5K6CKeqpr33gIy_f0sC3mJUy",
    "ee-WxCKgMyUo4vE2gm3ahb3j5hfSN3dwKBgQDLnDCs70t-6gwnkDBqi5tr9JSjwIoAhfLRKS5UVMgCTH3RkzcPeqC_q05AywUGsw",
    "co5TFlv7gH9_YGsXVXrb5N0vvxBHkDN9DXUieRp6h-p_Ot2BwYULYY3X0QBKKZAX97bJjMbJemRg-NezSCovWQEH3fbIP1-HLYc6",
    "7xLQaIQwKBgQCVMrDtDE6SMbVoju8OXTNIa5PLErz62e3Z0ptN5MOUfnnP0LqDnisRjHtAMV83IJ2WeulDr9_GrliQzx4SxhdUAE",
    "VM8gdRG8kl1208NqqCavmAySRt3h31zg-C3KtYkCiE1MVQKo2mSZ0hp-gV98ouJp2HNTyxlpLTEGyrEFFLPwKBgEZU54N1DVEDq7",
    "sm1XKYUtGRpJ6D7aeMnXmejgBXYNdacMOp5IUWSNysYdWDy3Kq-Lgpo0yQUxN9laBuQChPPcNIM_rnHp3788nM-RoZHdzSSxwr4F",
    "iN2LjyGTclQr0zhUOvGYDTqfankMvAWT0e6VAgQjqhE1wtvA4Et9NbSDxdAoGBAJ0-4ChPgGli0xhpyUuwvvOrbUG_lkCgzaqjv4",
    "JIXr8s-YudJwTZiyVMBpmoSSh72JggB4FDfADM8AtWi03zxbIEGe5lwCOgCntJ0Pr2vdzI1UN3qCBkershGqxqHcZY3rlMkte-uE",
    "PDPIZngnHaQ-lR916x7jHIU0h0-Q40nZNE",
);

// The public key, as `openssl pkey -pubout -outform DER` writes it.
pub(crate) const PUBLIC_TEXT: &str = concat!(
    "k1.public.MIIBIjANBgkqhkiG9w0BAQEFAAOCAQ8AMIIBCgKCAQEAp3G0w6iGCjGm6mKj653SGgr-8GW8--MQoqUcrB0xWgbef8",
    "gaSC36ppAtZjnQK6zD7VtROW5_3qx4UQMLPZSV2QduEBvAFQD4p1Gj_ir3nWPHDrFh7WTj7Zg4DXi0aRVMEENHEcgcuFvSfjiScI",
    "EcMh1E3bFRAyyhcTXKVz5Z0oGfm-byePnkIiYQinIAoo6M1m-1gim4PUEeKcppxieOFxORQYwkZovn53hPluKnoWUaPjwteFLKGu",
    "sMnaScJm54VI_g5eBKAI_MCB-_7nEjDOHgkVKUbzQnyK5T-8eSWAegTk5x8TGvEg6VRJ4FHK6fAD37m9NvR5ixoaHaT4l8JQIDAQ",
    "AB",
);

pub(crate) const SECRET_ID: &str = "k1.sid.SoyorXSNQ1jgBicmt8PNEJLqZFwtoeFuEFZ5AtKKRK4c";

pub(crate) const PUBLIC_ID: &str = "k1.pid.X7atxVN-a6t9JX4nY1HcqKFW3CoAycBebX_8jB8bSGn6";

// The answer is the wanted text.
fn expect_answer(rt: &impl Abort, answer: Result<String, PaserkError>, wanted: &str) {
    expect_text(rt, answer.expect(rt, "a text").as_str(), wanted);
}

#[test]
fn private_key_of_version_1(rt: HostRuntime) {
    let bytes = bytes_of(&rt, rt.alloc(), PRIVATE);
    let key = PasetoAsymmetricPrivateKey::<V1, Public>::from(&*bytes);
    expect_answer(&rt, rsa_secret_to_paserk(rt.alloc(), &key), SECRET);
    expect_answer(&rt, rsa_secret_id(rt.alloc(), &key), SECRET_ID);
    'texts: for text in &[SECRET, INFO] {
        let again: PrivateKey<V1> = rsa_private_key_from_paserk(rt.alloc(), text).expect(
            &rt,
            "a private key",
        );
        expect_bytes(&rt, again.lend().as_bytes(), &bytes);
    }
}

#[test]
fn public_key_of_version_1(rt: HostRuntime) {
    let bytes = bytes_of(&rt, rt.alloc(), PUBLIC);
    let key = PasetoAsymmetricPublicKey::<V1, Public>::from(&*bytes);
    expect_answer(&rt, rsa_public_to_paserk(rt.alloc(), &key), PUBLIC_TEXT);
    expect_answer(&rt, rsa_public_id(rt.alloc(), &key), PUBLIC_ID);
    let again: PublicKey<V1> = rsa_public_key_from_paserk(rt.alloc(), PUBLIC_TEXT).expect(
        &rt,
        "a public key",
    );
    expect_bytes(&rt, again.lend().as_bytes(), &bytes);
}

// What is no key of the version, and the key of another text.
const WRONG: &str = "The key was not in the correct format";

#[test]
fn what_is_no_key_is_not_written(rt: HostRuntime) {
    let public = bytes_of(&rt, rt.alloc(), PUBLIC);
    let key = PasetoAsymmetricPrivateKey::<V1, Public>::from(&*public);
    expect_fault(&rt, rsa_secret_to_paserk(rt.alloc(), &key), WRONG);
    expect_fault(&rt, rsa_secret_id(rt.alloc(), &key), WRONG);
    let private = bytes_of(&rt, rt.alloc(), PRIVATE);
    let key = PasetoAsymmetricPublicKey::<V1, Public>::from(&*private);
    expect_fault(&rt, rsa_public_to_paserk(rt.alloc(), &key), WRONG);
    expect_fault(&rt, rsa_public_id(rt.alloc(), &key), WRONG);
}

// The RSAPrivateKey of a key of 1024 bits.
pub(crate) const SHORT_KEY: &str = concat!(
    "k1.secret.MIICXAIBAAKBgQCq0BVMP7VUW5fTx2zpPsZylfA-EHqzUkQ8jB5cr0lRKr4mfHvVSTR3j2G756FolrF7ywVfpSyVBP",
    "eIPEHouJmNwW3VhUaJFbIhaUc3ZM4NA7Pd5uZfVqvbJwcqqmr1e-OpTgQivTx2C1z9ikAZNMBSz_XWtV-IN7116I0r-QJ2RQIDAQ",
    "ABAoGAIeFKCCiux7-vGrN4l776z6mL0FOmcsEDhdro_stJyI6ozqtsSH7PqFNJOGMWMc-J_prjQvhZImmsy1ngXM-YrSFXRTJ3LP",
    "-uLa3UeUZt0AtsNEsTikFq_PWjDkiek5B08U8TVeR2USM41RcTmcRBkYNBWoRC5SeDoBVjxn0knNUCQQDRjSIZ_OoigWeRblzIWk",
    "AYPs8IzYj8O3p6z8XyZECoS0udK2Nog80fJrDRcq1eiqiYyzNlAw35qE7MRNdjJB67AkEA0KzB9VV8tIpxpTsfwhDZcL16VMuDSR",
    "qGWrkZOBkOsFVQKSnJwMHsgFR26GiSf6EFPmqgrrnWdetAkwT10gLu_wJBAM9ZJ3UvnT2nbiOpYIWfR-y1uYasWe-7quX60ZOXP6",
    "NHXfqXBDZWtJEuZ6fYIVR7P3hxGNnKu_ldYRsew0GGbCECQFHVfhbdGJOgu2Kl5hVwECXDWMcKLIktqsTHVBmI0hbazh3mcmVyZ3",
    "IILb2EzPbaSbkpjawX2v_Razh8uH5MgjcCQEJTNF-8o0AHRMCIpeLUHcRP4DXI-vj3v3ukfLhTlX3DER7SSpGZSeuF1heu61urOw",
    "vmWx57NJgd9uLRAyXJBSg",
);

// A text that is read as a private key, and what is said of it.
const SECRETS: &[(&str, &str)] = &[
    ("", "The text is no PASERK key"),
    ("k3.secret.AAAA", "The key is one of version 3"),
    (PUBLIC_TEXT, "The key is a public one, which verifies"),
    ("k1.secret.", WRONG),
    ("k1.secret.AAAA", WRONG),
    (SHORT_KEY, WRONG),
];

#[test]
fn no_private_keys_of_version_1(rt: HostRuntime) {
    'rows: for &(text, wanted) in SECRETS {
        expect_fault(&rt, rsa_private_key_from_paserk(rt.alloc(), text), wanted);
    }
}

// The same of a public key. The last text is of an RSAPublicKey alone.
const PUBLICS: &[(&str, &str)] = &[
    ("", "The text is no PASERK key"),
    ("k3.public.AAAA", "The key is one of version 3"),
    (SECRET, "The key is a private one, which signs"),
    ("k1.public.", WRONG),
    (RSA_PUBLIC_KEY, WRONG),
];

pub(crate) const RSA_PUBLIC_KEY: &str = concat!(
    "k1.public.MIIBCgKCAQEAp3G0w6iGCjGm6mKj653SGgr-8GW8--MQoqUcrB0xWgbef8gaSC36ppAtZjnQK6zD7VtROW5_3qx4UQ",
    "MLPZSV2QduEBvAFQD4p1Gj_ir3nWPHDrFh7WTj7Zg4DXi0aRVMEENHEcgcuFvSfjiScIEcMh1E3bFRAyyhcTXKVz5Z0oGfm-byeP",
    "nkIiYQinIAoo6M1m-1gim4PUEeKcppxieOFxORQYwkZovn53hPluKnoWUaPjwteFLKGusMnaScJm54VI_g5eBKAI_MCB-_7nEjDO",
    "HgkVKUbzQnyK5T-8eSWAegTk5x8TGvEg6VRJ4FHK6fAD37m9NvR5ixoaHaT4l8JQIDAQAB",
);

#[test]
fn no_public_keys_of_version_1(rt: HostRuntime) {
    'rows: for &(text, wanted) in PUBLICS {
        expect_fault(&rt, rsa_public_key_from_paserk(rt.alloc(), text), wanted);
    }
}
