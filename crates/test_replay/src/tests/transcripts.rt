//! Parts of transcripts, and what a replay writes of them. The digests and HMACs of requests and replies were made with Python's
//! `hashlib` and `hmac`, but for those of RFC 2865, section 7.1, and RFC 5997, section 6.

/// The configuration of one client, and the divider.
pub const GATEWAY: &str = "[[client]]\naddress = \"192.168.1.16\"\nsecret = \"xyzzy5461\"\n---\n";

/// The same client, which has to send Message-Authenticators.
pub const SUMMING_GATEWAY: &str =
    "[[client]]\naddress = \"192.168.1.16\"\nsecret = \"xyzzy5461\"\nrequire_message_authenticator = true\n---\n";

/// Lines that are dropped, and what is written of them.
pub const DROPS: &str = "0 acct 192.168.1.17:1813 -\n\
    1 acct 192.168.1.16:1813 -\n\
    2 acct 192.168.1.16:1813 0401001300000000000000000000000000000000\n\
    3 acct 192.168.1.16:1813 0401001500000000000000000000000000000000\n\
    4 acct 192.168.1.16:1813 04010016000000000000000000000000000000002801\n\
    5 acct 192.168.1.16:1813 0501001400000000000000000000000000000000\n\
    6 acct 192.168.1.16:1813 0401001400000000000000000000000000000000\n\
    7 auth 192.168.1.16:1024 0100004a0f403f9473978057bd83d5cb98f4227a01066e656d6f02120dbe708d93d413ce3196e43f782a0aee0406c0a80110050600000003501200000000000000000000000000000000\n\
    8 auth 192.168.1.16:1024 0100003f0f403f9473978057bd83d5cb98f4227a01066e656d6f02120dbe708d93d413ce3196e43f782a0aee0406c0a801100506000000034f070200000501\n\
    9 acct 192.168.1.16:1813 040700177954c8809bcdc824ae6854ceec295ba52c0361\n";

pub const DROPPED: &str = "1 drop 1 UnknownClient\n\
    2 drop 2 Short\n\
    3 drop 3 BadLength\n\
    4 drop 4 Truncated\n\
    5 drop 5 BadAttributes\n\
    6 drop 6 WrongCode\n\
    7 drop 7 BadAuthenticator\n\
    8 drop 8 BadMessageAuthenticator\n\
    9 drop 9 NoMessageAuthenticator\n\
    10 drop 10 NoStatusType\n";

/// An Accounting-Request of a session that starts, and its reply after the number.
pub const START: &str =
    "7 acct 192.168.1.16:1813 0407001abf750299ba7111cf8a9def2b872d436c280600000001";

pub const START_REPLY: &str = "reply 05070014171dc47bc90b494526cf68253bd9b4a6\n";

/// The same with another identifier.
pub const SECOND: &str =
    "8 acct 192.168.1.16:1813 0408001a802f67230e8d14f111df95bb989900dc280600000001";

pub const SECOND_REPLY: &str = "reply 05080014576aca8c7b82c2db85974d82010e671e\n";

/// With a Proxy-State, which comes back.
pub const PROXIED: &str =
    "9 acct 192.168.1.16:1813 0407001f82effceaf7aaf54543e76ee4589ad7222806000000012105616263";

pub const PROXIED_REPLY: &str = "reply 050700193d7246dea2efa4d3b195ea044217c61d2105616263\n";

/// With two Proxy-States among other attributes.
pub const TWICE_PROXIED: &str =
    "9 acct 192.168.1.16:1813 04070028a401e3215d0229e0a78a10692190b81221047a7a28060000000121056162630105626f62";

pub const TWICE_PROXIED_REPLY: &str =
    "reply 0507001d209fd420d5d1d9450e5c22444667f9b421047a7a2105616263\n";

/// The Access-Request of RFC 2865, section 7.1.
pub const ACCESS: &str =
    "10 auth 192.168.1.16:1024 010000380f403f9473978057bd83d5cb98f4227a01066e656d6f02120dbe708d93d413ce3196e43f782a0aee0406c0a80110050600000003";

pub const ACCESS_REPLY: &str =
    "reply 0300003569021d8f0e43ed94ff117bb6acdf66045012902a49a4f596009cb3e6d869e09528af120f6163636573732064656e696564\n";

/// The same between two Proxy-States.
pub const PROXIED_ACCESS: &str =
    "11 auth 192.168.1.16:1024 010000410f403f9473978057bd83d5cb98f4227a21047a7a01066e656d6f02120dbe708d93d413ce3196e43f782a0aee0406c0a801100506000000032105616263";

pub const PROXIED_ACCESS_REPLY: &str =
    "reply 0300003ec8136e558ae07c905538baf25241c8635012e48b64e74355405420f7666167926a7e120f6163636573732064656e69656421047a7a2105616263\n";

/// With a State of no challenge.
pub const STATE_ACCESS: &str =
    "12 auth 192.168.1.16:1024 0100003d0f403f9473978057bd83d5cb98f4227a01066e656d6f02120dbe708d93d413ce3196e43f782a0aee0406c0a801100506000000031805616263";

pub const STATE_ACCESS_REPLY: &str =
    "reply 03000035f1643dbd260d2105c60af1bfd2df4c38501202704ced3e48783b225896e64a7eb7b0120f737461746520756e6b6e6f776e\n";

/// With an EAP-Message and a Message-Authenticator.
pub const EAP_ACCESS: &str =
    "13 auth 192.168.1.16:1024 010300510f403f9473978057bd83d5cb98f4227a01066e656d6f02120dbe708d93d413ce3196e43f782a0aee0406c0a801100506000000034f07020000050150125eaf9de74dae93f889e1907563aa5640";

pub const EAP_ACCESS_REPLY: &str =
    "reply 0303003915f411cfccb314af9dd51a157bedea0f501219d9d1a330f61ee3f5674e6aff32fe9d1213656170206e6f7420737570706f72746564\n";

/// The Status-Server of RFC 5997, section 6.1.
pub const STATUS: &str =
    "14 auth 192.168.1.16:1024 0cda00268a54f4686fb394c52866e302185d062350125a665e2e1e8411f3e243822097c84fa3";

pub const STATUS_REPLY: &str =
    "reply 02da00267e6d7a5f5dfa87b519bef260a6f15081501257566a4a4a4c690f8e18b73ae7a7f65f\n";

/// That of section 6.2, to the accounting port.
pub const ACCT_STATUS: &str =
    "15 acct 192.168.1.16:1024 0cb30026925f6b66dd5fed571fcb1db7ad3882605012e8d6eabda910875cd91fdade26367858";

pub const ACCT_STATUS_REPLY: &str = "reply 05b300140f6f92145f107e2f504e860a4860669c\n";

/// A Status-Server with two Proxy-States, after the port, and its replies at either port.
pub const PROXIED_STATUS: &str =
    " 192.168.1.16:1024 0c09002f8a54f4686fb394c52866e302185d062350121dd7410c3f96080f1b791d21febe7a6f21047a7a2105616263";

pub const PROXIED_STATUS_ACCEPT: &str =
    "reply 0209002f1425ec08c70ee962a4d5f2673898cb20501212bd3059d2123b2183999a58d769a68621047a7a2105616263\n";

pub const PROXIED_STATUS_RESPONSE: &str =
    "reply 0509001d0b44bdbbb3a9de12bdfc431255a7f05821047a7a2105616263\n";

/// The same client and a user with a challenge.
pub const CHALLENGING: &str =
    "[[client]]\naddress = \"192.168.1.16\"\nsecret = \"xyzzy5461\"\n[[user]]\nname = \"kay\"\npassword = \"pw\"\nchallenge = \"code?\"\nanswer = \"4711\"\n---\n";

/// The log-in of that user.
pub const LOGIN: &str =
    "0 auth 192.168.1.16:1024 0101002b0f403f9473978057bd83d5cb98f4227a01056b617902121cbb13f9f2ba74ab5fe2e43f782a0aee";

/// Its challenge, under a draw of the line and under that of the first datagram.
pub const OWN_CHALLENGE: &str =
    "reply 0b0100477782e8cc6bdd666a84e28688a4dd42885012001c0c8687e260c881d221752d5bad6a1207636f64653f181a000000000000000100112233445566778899aabbccddeeff\n";

pub const FIRST_CHALLENGE: &str =
    "reply 0b01004750ba028fa850bf5dc85631d17f42561e5012e38f4a703d7ce51b2753a3b87d983a8e1207636f64653f181a000000000000000100000000000000000000000000000001\n";

/// The answer to the former, and its replies after either.
pub const ANSWER: &str =
    "1 auth 192.168.1.16:1024 010200450f403f9473978057bd83d5cb98f4227a01056b6179021258fb22c8f2ba74ab5fe2e43f782a0aee181a000000000000000100112233445566778899aabbccddeeff";

pub const RIGHT_ANSWER: &str =
    "reply 0202003427b3a71ac3cf7b73185a01d8f1551d575012777fcaf10757230e8e40690829578459190e524150310000000000000001\n";

pub const UNKNOWN_STATE: &str =
    "reply 03020035b01da9461ef3e4795f6489cac2b3656f5012232139856b95d986f39f36f0c7542dd6120f737461746520756e6b6e6f776e\n";
